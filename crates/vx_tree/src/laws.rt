// Laws of trees.
ghost use Rattle.vx_tree.specs.Equality.{EqualityIsExact};
ghost use Rattle.vx_tree.specs.Hashes.{EqualTreesAreAlike};
ghost use Rattle.vx_tree.specs.Meant.{BoundMeansItsSource};
ghost use Rattle.vx_tree.specs.Soundness.{TypesAreSound};
ghost use Rattle.vx_tree.specs.Uniqueness.{BindingIsUnique};

/// At each row of a batch on which a well-typed tree doesn't fault, its value fits its type.
pub fn types_are_sound()
    ensures { TypesAreSound }
{}

/// A bound tree has its type by typing its source, and its value is its source's meaning.
pub fn bound_means_its_source()
    ensures { BoundMeansItsSource }
{}

/// A well-typed tree over a scope is what binding gives of its source.
pub fn binding_is_unique()
    ensures { BindingIsUnique }
{}

/// Trees of either kind are equal exactly where they are one tree.
pub fn equality_is_exact()
    ensures { EqualityIsExact }
{}

/// Equal trees of either kind are hashed alike, and equal bound trees have one value at each row.
pub fn equal_trees_are_alike()
    ensures { EqualTreesAreAlike }
{}
