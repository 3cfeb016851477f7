// The laws of the numbering, each the contract of a function.
// A law answers 0, since there is no code in it: so the list of planted bugs knows it.
ghost use Rattle.tree_math.specs.Laws.{ChildHeights, ChildlessLeaves, ChildrenOfParent, Covers, LeafPlaces, Numbering, Outside, ParentOfChildren, RootHasNoParent};

pub fn numbering_holds() -> u8
    ensures { Numbering }
{
    0
}

pub fn covers_holds() -> u8
    ensures { Covers }
{
    0
}

pub fn leaf_places_hold() -> u8
    ensures { LeafPlaces }
{
    0
}

pub fn child_heights_hold() -> u8
    ensures { ChildHeights }
{
    0
}

pub fn childless_leaves_hold() -> u8
    ensures { ChildlessLeaves }
{
    0
}

pub fn parent_of_children_holds() -> u8
    ensures { ParentOfChildren }
{
    0
}

pub fn children_of_parent_hold() -> u8
    ensures { ChildrenOfParent }
{
    0
}

pub fn root_has_no_parent_holds() -> u8
    ensures { RootHasNoParent }
{
    0
}

pub fn outside_holds() -> u8
    ensures { Outside }
{
    0
}
