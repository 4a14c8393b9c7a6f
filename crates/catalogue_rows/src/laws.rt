//! What holds of the definitions, as a clause.
ghost use Rattle.catalogue_rows.specs.WorkedCatalogues.{CataloguesAreWorked};

#[tactic(auto, using(crate::proofs::WorkedCatalogueLemmas::catalogues_worked))]
/// Files of catalogues have the bytes that were worked by hand.
pub fn worked_catalogues_hold()
    ensures { CataloguesAreWorked }
{}
