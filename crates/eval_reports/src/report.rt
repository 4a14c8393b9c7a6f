//! The report of a given assortment: whether it keeps to the limits, the chances of choices, and what it earns.
ghost use Rattle.std.specs.Prelude.{◌≡◌, ◌++◌, ◌<◌, length, map, codes, OnOk, IfOk};
ghost use Rattle.offer_model.specs.Assortments.{offers};
ghost use Rattle.offer_model.specs.Problems.{product_count, segment_at, first_segment};
ghost use Rattle.offer_model.specs.Revenue.{chance_of, leave_of};
ghost use Rattle.offer_model.specs.Validity.{IsRatioModel};
ghost use Rattle.eval_reports.specs.EvalReports.{HoldsSegments, fraction_text, verdict_line, chance_line, chance_line_if, chance_lines_from, choice_lines, segment_line, gain_line, segment_lines, all_segment_lines, choices_under, eval_report, IsEvalReport};

use crate::chances::{chance, leave};
use crate::pieces::{put_fraction, put_model};
use assort_reports::{put, put_number, put_set, put_value};
use catalogue::{Catalogue, SegmentTable};
use limit_rules::first_broken;
use offer_model::{Assortment, Bytes, Fraction, ModelName, NoMemory, Problem, gain, weight};
use std::alloc::Global;

fn put_verdict(text: &mut Bytes, broken: Option<usize>) -> Result<(), NoMemory>
    ensures { OnOk result (text.new.items ≡ text.old.items ++ verdict_line broken) }
{
    match broken {
        None => put(text, b"limits met\n"),
        Some(k) => {
            put(text, b"breaks limits row ")?;
            put_number(text, k as u128 + 2)?;
            put(text, b"\n")
        }
    }
}

fn put_chance(text: &mut Bytes, name: &str, chance: Fraction) -> Result<(), NoMemory>
    ensures { OnOk result (text.new.items ≡ text.old.items ++ chance_line name.now chance) }
{
    put(text, b"chance ")?;
    put(text, name.as_bytes())?;
    put(text, b" ")?;
    put_fraction(text, chance)
}

/// Puts a line where product `i` is offered.
fn put_chance_if(
    text: &mut Bytes,
    p: &Problem,
    x: &Assortment,
    g: usize,
    i: usize,
    name: &str,
) -> Result<(), NoMemory>
    requires segment { g < length p.now.segments }
    requires length { length x.now ≡ product_count p.now }
    requires product { i < product_count p.now }
    ensures { OnOk result (text.new.items ≡ text.old.items
        ++ chance_line_if (offers x.now i) name.now
        (chance_of p.now (segment_at p.now g) x.now i)) }
{
    if x.offers(i) {
        return put_chance(text, name, chance(p, g, x, i));
    }
    Ok(())
}

fn put_chances(
    text: &mut Bytes,
    c: &Catalogue,
    p: &Problem,
    x: &Assortment,
    g: usize,
) -> Result<(), NoMemory>
    requires segment { g < length p.now.segments }
    requires products { product_count p.now ≡ length c.now }
    requires length { length x.now ≡ product_count p.now }
    ensures { OnOk result (text.new.items ≡ text.old.items
        ++ chance_lines_from p.now x.now (segment_at p.now g) 0 c.now) }
{
    'chances: for i in 0..c.len() {
        put_chance_if(text, p, x, g, i, c.name(i))?;
    }
    Ok(())
}

/// What the customers of segment `g` do.
fn put_choices(
    text: &mut Bytes,
    c: &Catalogue,
    p: &Problem,
    x: &Assortment,
    g: usize,
) -> Result<(), NoMemory>
    requires segment { g < length p.now.segments }
    requires products { product_count p.now ≡ length c.now }
    requires length { length x.now ≡ product_count p.now }
    ensures { OnOk result (text.new.items ≡ text.old.items
        ++ choice_lines c.now p.now x.now (segment_at p.now g)) }
{
    put_chances(text, c, p, x, g)?;
    put(text, b"leave ")?;
    put_fraction(text, leave(p, g, x))
}

fn put_segment_head(text: &mut Bytes, name: &str, size: u64) -> Result<(), NoMemory>
    ensures { OnOk result (text.new.items ≡ text.old.items ++ segment_line name.now size) }
{
    put(text, b"segment ")?;
    put(text, name.as_bytes())?;
    put(text, b" size ")?;
    put_number(text, u128::from(size))?;
    put(text, b"\n")
}

fn put_gain(text: &mut Bytes, p: &Problem, x: &Assortment, g: usize) -> Result<(), NoMemory>
    requires segment { g < length p.now.segments }
    requires length { length x.now ≡ product_count p.now }
    ensures { OnOk result (text.new.items ≡ text.old.items
        ++ gain_line p.now x.now (segment_at p.now g)) }
{
    let earned = Fraction {
        num: gain(p, g, x),
        den: weight(p, g, x),
    };
    put(text, b"gain ")?;
    put_fraction(text, earned)
}

/// The size of segment `g`.
fn size(p: &Problem, g: usize) -> u64
    requires { g < length p.now.segments }
    ensures { result ≡ (segment_at p.now g).size }
{
    p.segments().get(g).size()
}

/// All lines of segment `g` under mixed logit.
fn put_segment(
    text: &mut Bytes,
    c: &Catalogue,
    name: &str,
    p: &Problem,
    x: &Assortment,
    g: usize,
) -> Result<(), NoMemory>
    requires segment { g < length p.now.segments }
    requires products { product_count p.now ≡ length c.now }
    requires length { length x.now ≡ product_count p.now }
    ensures { OnOk result (text.new.items ≡ text.old.items
        ++ segment_lines c.now p.now x.now name.now (segment_at p.now g)) }
{
    put_segment_head(text, name, size(p, g))?;
    put_choices(text, c, p, x, g)?;
    put_gain(text, p, x, g)
}

#[tactic(auto, using(crate::proofs::SegmentLemmas::held_segment, crate::proofs::SegmentLemmas::held_count))]
fn put_segments(
    text: &mut Bytes,
    c: &Catalogue,
    s: &SegmentTable,
    p: &Problem,
    x: &Assortment,
) -> Result<(), NoMemory>
    requires segments { map (λ named. named.segment) s.now ≡ p.now.segments }
    requires products { product_count p.now ≡ length c.now }
    requires length { length x.now ≡ product_count p.now }
    ensures { OnOk result (text.new.items ≡ text.old.items
        ++ all_segment_lines c.now p.now x.now s.now) }
{
    'segments: for g in 0..s.len() {
        put_segment(text, c, s.name(g), p, x, g)?;
    }
    Ok(())
}

/// What the customers of all segments do.
fn put_all_choices(
    text: &mut Bytes,
    c: &Catalogue,
    s: &SegmentTable,
    p: &Problem,
    x: &Assortment,
) -> Result<(), NoMemory>
    requires segments { HoldsSegments s.now p.now }
    requires products { product_count p.now ≡ length c.now }
    requires length { length x.now ≡ product_count p.now }
    ensures { OnOk result (text.new.items ≡ text.old.items
        ++ choices_under p.now.model c.now s.now p.now x.now) }
{
    match p.model() {
        ModelName::Logit | ModelName::Attract => put_choices(text, c, p, x, 0),
        ModelName::Mixed => put_segments(text, c, s, p, x),
        ModelName::Chain => unreachable!(),
    }
}

/// The report of an assortment: whether it keeps to the limits or the row of the first that it breaks, in each segment the chances
/// of what is offered and of buying nothing, and what it earns. Only under mixed logit the segments' names are read.
///
/// # Errors
///
/// Want of memory alone.
pub fn report_eval(
    alloc: Global,
    c: &Catalogue,
    s: &SegmentTable,
    p: &Problem,
    x: &Assortment,
) -> Result<Bytes, NoMemory>
    requires segments { HoldsSegments s.now p.now }
    requires products { product_count p.now ≡ length c.now }
    requires length { length x.now ≡ length c.now }
    ensures { IfOk result (λ text. IsEvalReport c.now s.now p.now x.now text.items) }
{
    let mut text = Bytes::new(alloc);
    put_model(&mut text, p.model())?;
    put_set(&mut text, x)?;
    put_verdict(&mut text, first_broken(p, x))?;
    put_all_choices(&mut text, c, s, p, x)?;
    put_value(&mut text, p, x)?;
    Ok(text)
}
