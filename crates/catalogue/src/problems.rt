//! The problem that a catalogue and its limits are.
ghost use Rattle.std.specs.Prelude.{◌≡◌, ◌≢◌, ◌<◌, [], ◌∷◌, length, map, IfOk};
ghost use Rattle.offer_model.specs.Validity.{IsPositiveAmount, IsRatioModel, HasLimits};
ghost use Rattle.catalogue.specs.CatalogueProblems.{shadow_under, segment_of, segments_under, problem_data_of, FitSegments};
ghost use Rattle.catalogue_rows.specs.Rows.{KeepsShadows, row_at, IsCatalogue};

use crate::segment_table::SegmentTable;
use catalogue_rows::Catalogue;
use offer_model::{Limits, ModelName, NoMemory, Numbers, Problem, Products, Segment, Segments};
use std::alloc::Global;

fn products_of(alloc: Global, c: &Catalogue) -> Result<Products, NoMemory>
    ensures products { IfOk result (λ list. list.items ≡ map (λ row. row.product) c.now) }
    ensures valid { IsCatalogue c.now }
{
    let mut list = Products::new(alloc);
    list.reserve(c.len())?;
    for i in 0..c.len() {
        list.push(c.product(i));
    }
    Ok(list)
}

fn attractions_of(alloc: Global, c: &Catalogue) -> Result<Numbers, NoMemory>
    ensures attractions { IfOk result (λ list. list.items ≡ map (λ row. row.attraction) c.now) }
    ensures valid { IsCatalogue c.now }
{
    let mut list = Numbers::new(alloc);
    list.reserve(c.len())?;
    for i in 0..c.len() {
        list.push(c.attract(i));
    }
    Ok(list)
}

fn shadow_of(c: &Catalogue, model: ModelName, i: usize) -> u64
    requires { i < length c.now }
    ensures { result ≡ shadow_under model (row_at c.now i) }
{
    match model {
        ModelName::Attract => c.shadow(i),
        ModelName::Logit | ModelName::Mixed | ModelName::Chain => 0,
    }
}

fn shadows_of(alloc: Global, c: &Catalogue, model: ModelName) -> Result<Numbers, NoMemory>
    ensures { IfOk result (λ list. list.items ≡ map (shadow_under model) c.now) }
{
    let mut list = Numbers::new(alloc);
    list.reserve(c.len())?;
    for i in 0..c.len() {
        list.push(shadow_of(c, model, i));
    }
    Ok(list)
}

#[tactic(auto, using(crate::proofs::CatalogueProblemLemmas::take_read))]
fn copied_limits(alloc: Global, limits: &Limits) -> Result<Limits, NoMemory>
    ensures { IfOk result (λ list. list.items ≡ limits.now.items) }
{
    let mut list = Limits::new(alloc);
    list.reserve(limits.len())?;
    for i in 0..limits.len() {
        list.push(*limits.get(i));
    }
    Ok(list)
}

fn only_segment(
    alloc: Global,
    c: &Catalogue,
    model: ModelName,
    none: u64,
) -> Result<Segments, NoMemory>
    requires none { IsPositiveAmount none }
    requires shadows { model ≡ ModelName.Attract → KeepsShadows c.now }
    ensures { IfOk result (λ list. list.items ≡ segment_of c.now model none ∷ []) }
{
    let attract = attractions_of(alloc, c)?;
    let shadow = shadows_of(alloc, c, model)?;
    let mut list = Segments::new(alloc);
    list.reserve(1)?;
    list.push(Segment::new(1, none, attract, shadow));
    Ok(list)
}

/// Equal segments, without their names.
fn copied_segments(alloc: Global, segments: &SegmentTable) -> Result<Segments, NoMemory>
    ensures { IfOk result (λ list. list.items ≡ map (λ named. named.segment) segments.now) }
{
    let mut list = Segments::new(alloc);
    list.reserve(segments.len())?;
    for g in 0..segments.len() {
        list.push(segments.segment(g).copy(alloc)?);
    }
    Ok(list)
}

/// The segments of the customers: those that are given under mixed logit, else the catalogue's one.
fn segments_under(
    alloc: Global,
    c: &Catalogue,
    model: ModelName,
    none: u64,
    segments: &SegmentTable,
) -> Result<Segments, NoMemory>
    requires none { IsRatioModel model → IsPositiveAmount none }
    requires model { model ≢ ModelName.Chain }
    requires shadows { model ≡ ModelName.Attract → KeepsShadows c.now }
    ensures { IfOk result (λ list. list.items ≡ segments_under c.now model none segments.now) }
{
    match model {
        ModelName::Mixed => copied_segments(alloc, segments),
        ModelName::Logit | ModelName::Attract | ModelName::Chain => {
            only_segment(alloc, c, model, none)
        }
    }
}

/// The problem of a catalogue and its limits. Under mixed logit its segments are those that are given, and `none` isn't read;
/// under logit and generalised attraction all customers are one segment, and `segments` isn't read.
pub fn problem_of(
    alloc: Global,
    c: &Catalogue,
    model: ModelName,
    none: u64,
    unit: u64,
    segments: &SegmentTable,
    limits: &Limits,
) -> Result<Problem, NoMemory>
    requires model { model ≢ ModelName.Chain }
    requires limits { HasLimits (problem_data_of c.now model none unit segments.now limits.now.items) }
    // of one segment, and of several
    requires none { IsRatioModel model → IsPositiveAmount none }
    requires unit { IsRatioModel model → unit ≡ 1 }
    requires shadows { model ≡ ModelName.Attract → KeepsShadows c.now }
    requires segments { model ≡ ModelName.Mixed → FitSegments c.now unit segments.now }

    ensures { IfOk result (λ p. p ≡ problem_data_of c.now model none unit segments.now limits.now.items) }
{
    let products = products_of(alloc, c)?;
    let segments = segments_under(alloc, c, model, none, segments)?;
    let limits = copied_limits(alloc, limits)?;
    Ok(Problem::new(model, unit, products, segments, limits))
}
