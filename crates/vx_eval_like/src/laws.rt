// What a pattern that was read promises.
ghost use Rattle.vx_eval_like.specs.Beginnings.{LikeIsBeginning};
ghost use Rattle.vx_eval_like.specs.Laws.{AcceptsWhatIsLike};

/// A pattern that was read accepts the texts that are like it, and no others.
pub fn accepts_what_is_like()
    ensures { AcceptsWhatIsLike }
{}

/// A text is like a pattern of a beginning, as [`crate::beginning_of`] tells it, exactly where it begins so.
pub fn like_is_beginning()
    ensures { LikeIsBeginning }
{}
