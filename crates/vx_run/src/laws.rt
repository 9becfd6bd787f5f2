// Laws of the pages.
ghost use Rattle.vx_run.specs.PageTexts.{KleenePageIs, CoalescePageIs, CasesPageIs, FusedPageIs, BranchesPageIs, ScanPageIs};
ghost use Rattle.vx_run.specs.Branches.{BranchesIsNormalForm};
ghost use Rattle.vx_run.specs.Fused.{FusedIsKleeneMerged};

/// The page of the row `kleene`, byte for byte.
pub fn kleene_page_is()
    ensures { KleenePageIs }
{}

/// The page of the row `coalesce`, byte for byte.
pub fn coalesce_page_is()
    ensures { CoalescePageIs }
{}

/// The page of the row `cases`, byte for byte.
pub fn cases_page_is()
    ensures { CasesPageIs }
{}

/// The page of the row `fused`, byte for byte.
pub fn fused_page_is()
    ensures { FusedPageIs }
{}

/// The page of the row `branches`, byte for byte.
pub fn branches_page_is()
    ensures { BranchesPageIs }
{}

/// The page of the row `scan`, byte for byte.
pub fn scan_page_is()
    ensures { ScanPageIs }
{}

/// The tree of the row `fused` is what merging leaves of that of the row `kleene`.
pub fn fused_is_kleene_merged()
    ensures { FusedIsKleeneMerged }
{}

/// The tree of the row `branches` is what the branch rules leave of its CASE, whatever their order.
pub fn branches_is_normal_form()
    ensures { BranchesIsNormalForm }
{}
