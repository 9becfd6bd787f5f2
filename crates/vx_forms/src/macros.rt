// Trees as they are read.

/// A tree as it is read, in place of a call with the allocator for each node:
/// `expr!(in alloc; and(gt_eq(col("x"), lit(2)), lt(col("x"), lit(5))))`. Each name is that of a
/// constructor of this crate, without the allocator; `tree(e)` is a tree that is there already, one
/// that is lent, or the answer of a call. It stands where `?` may stand, and is refused as the first
/// of its nodes.
#[macro_export]
macro_rules! expr {
    (in $a:ident; $f:ident $args:tt) => { $crate::expr!(@operand $a $f $args)? };

    // a tree of the whole as an operand, which may be the refusal of the call that makes it
    (@operand $a:ident root ()) => { $crate::Operand::into_tree($crate::root()) };
    (@operand $a:ident tree ($tree:expr)) => { $crate::Operand::into_tree($tree) };
    (@operand $a:ident col ($name:expr)) => { $crate::col($a, $name) };
    (@operand $a:ident lit ($value:expr)) => { $crate::lit($a, $value) };
    (@operand $a:ident get_item ($name:expr, $f:ident $args:tt)) => {
        $crate::get_item($a, $name, $crate::expr!(@operand $a $f $args))
    };
    (@operand $a:ident select ([$($name:expr),* $(,)?], $f:ident $args:tt)) => {
        $crate::select($a, [$($name),*], $crate::expr!(@operand $a $f $args))
    };
    (@operand $a:ident select_exclude ([$($name:expr),* $(,)?], $f:ident $args:tt)) => {
        $crate::select_exclude($a, [$($name),*], $crate::expr!(@operand $a $f $args))
    };
    (@operand $a:ident pack ([$(($name:expr, $f:ident $args:tt)),* $(,)?], $nullability:expr)) => {
        $crate::pack($a, [$(($name, $crate::expr!(@operand $a $f $args))),*], $nullability)
    };
    (@operand $a:ident cast ($f:ident $args:tt, $target:expr)) => {
        $crate::cast($a, $crate::expr!(@operand $a $f $args), $target)
    };
    (@operand $a:ident binary ($operator:expr, $f:ident $fa:tt, $g:ident $ga:tt)) => {
        $crate::binary(
            $a,
            $operator,
            $crate::expr!(@operand $a $f $fa),
            $crate::expr!(@operand $a $g $ga),
        )
    };
    (@operand $a:ident between ($f:ident $fa:tt, $g:ident $ga:tt, $h:ident $ha:tt, $options:expr)) => {
        $crate::between(
            $a,
            $crate::expr!(@operand $a $f $fa),
            $crate::expr!(@operand $a $g $ga),
            $crate::expr!(@operand $a $h $ha),
            $options,
        )
    };
    // every other: a function of trees alone
    (@operand $a:ident $function:ident ($($f:ident $args:tt),* $(,)?)) => {
        $crate::$function($a, $($crate::expr!(@operand $a $f $args)),*)
    };
}
