//! Laws of references and of the order in which files are valued.
ghost use Rattle.dsdl_links.specs.Laws.{HaveOneMeaning, HaveOneOrder};

/// References mean files in one way: files have one list of links, or one first reference that means no file.
#[tactic(auto, using(crate::proofs::OneMeaning::one_meaning))]
pub fn one_meaning()
    ensures { HaveOneMeaning }
{}

/// Links give one order in which files are valued, or one first file that reaches itself.
#[tactic(auto, using(crate::proofs::OneOrder::one_order))]
pub fn one_order()
    ensures { HaveOneOrder }
{}
