//! The report of an assortment: model, offers, set and what it earns.
ghost use Rattle.std.specs.Prelude.{◌≡◌, ◌++◌, length, codes, decimal, OnOk, IfOk};
ghost use Rattle.offer_model.specs.Problems.{product_count};
ghost use Rattle.assort_reports.specs.Reports.{head_lines, bound_lines, offer_line, offer_line_if, offer_lines, problem_report, chain_report, trial_report};

use crate::pieces::{model_text, put, put_number, put_set, put_value};
use catalogue::Catalogue;
use chain_values::ChainAnswer;
use offer_model::{Assortment, Bytes, ModelName, NoMemory, Problem};
use std::alloc::Global;

/// The model and how many products there are.
fn put_head(text: &mut Bytes, model: ModelName, products: usize) -> Result<(), NoMemory>
    ensures { OnOk result (text.new.items ≡ text.old.items ++ head_lines model products) }
{
    put(text, b"model ")?;
    put(text, model_text(model).as_bytes())?;
    put(text, b"\nproducts ")?;
    put_number(text, products as u128)?;
    put(text, b"\n")
}

/// The two bounds of a chain's assortment.
fn put_bounds(text: &mut Bytes, lo: u64, up: u64) -> Result<(), NoMemory>
    ensures { OnOk result (text.new.items ≡ text.old.items ++ bound_lines lo up) }
{
    put(text, b"lower ")?;
    put_number(text, u128::from(lo))?;
    put(text, b"\nupper ")?;
    put_number(text, u128::from(up))?;
    put(text, b"\n")
}

fn put_offer(text: &mut Bytes, name: &str) -> Result<(), NoMemory>
    ensures { OnOk result (text.new.items ≡ text.old.items ++ offer_line name.now) }
{
    put(text, b"offer ")?;
    put(text, name.as_bytes())?;
    put(text, b"\n")
}

/// Puts a line where the product is offered.
fn put_offer_if(text: &mut Bytes, offered: bool, name: &str) -> Result<(), NoMemory>
    ensures { OnOk result (text.new.items ≡ text.old.items ++ offer_line_if offered name.now) }
{
    if offered {
        return put_offer(text, name);
    }
    Ok(())
}

fn put_offers(text: &mut Bytes, c: &Catalogue, x: &Assortment) -> Result<(), NoMemory>
    requires { length x.now ≡ length c.now }
    ensures { OnOk result (text.new.items ≡ text.old.items ++ offer_lines c.now x.now) }
{
    'offers: for i in 0..c.len() {
        put_offer_if(text, x.offers(i), c.name(i))?;
    }
    Ok(())
}

/// The report of an assortment.
pub fn report_problem(
    alloc: Global,
    c: &Catalogue,
    p: &Problem,
    x: &Assortment,
) -> Result<Bytes, NoMemory>
    requires products { product_count p.now ≡ length c.now }
    requires length { length x.now ≡ length c.now }
    ensures { IfOk result (λ text. text.items ≡ problem_report c.now p.now x.now) }
{
    let mut text = Bytes::new(alloc);
    put_head(&mut text, p.model(), p.products().len())?;
    put_offers(&mut text, c, x)?;
    put_set(&mut text, x)?;
    put_value(&mut text, p, x)?;
    Ok(text)
}

/// The report of a chain: the products that its answer offers, and the two bounds.
pub fn report_chain(alloc: Global, c: &Catalogue, answer: &ChainAnswer) -> Result<Bytes, NoMemory>
    requires length { length answer.now.set ≡ length c.now }
    ensures { IfOk result (λ text. text.items ≡ chain_report c.now answer.now) }
{
    let mut text = Bytes::new(alloc);
    put_head(&mut text, ModelName::Chain, c.len())?;
    put_offers(&mut text, c, &answer.set)?;
    put_set(&mut text, &answer.set)?;
    put_bounds(&mut text, answer.lo, answer.up)?;
    Ok(text)
}

/// The report of trial inputs: a line of the seed and the number of products before the report of the assortment that was found.
pub fn report_trial(alloc: Global, seed: u64, count: u64, report: &Bytes) -> Result<Bytes, NoMemory>
    ensures { IfOk result (λ text. text.items ≡ trial_report seed count report.now.items) }
{
    let mut text = Bytes::new(alloc);
    put(&mut text, b"trial ")?;
    put_number(&mut text, u128::from(seed))?;
    put(&mut text, b" ")?;
    put_number(&mut text, u128::from(count))?;
    put(&mut text, b"\n")?;
    put(&mut text, report.as_slice())?;
    Ok(text)
}
