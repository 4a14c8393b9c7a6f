//! Pieces of the report of a given assortment: fractions, and the line of the model.
ghost use Rattle.std.specs.Prelude.{◌≡◌, ◌++◌, OnOk};
ghost use Rattle.eval_reports.specs.EvalReports.{fraction_text, model_line};

use assort_reports::{model_text, put, put_number};
use offer_model::{Bytes, Fraction, ModelName, NoMemory};

/// Puts a fraction last, and ends the line.
pub(crate) fn put_fraction(text: &mut Bytes, f: Fraction) -> Result<(), NoMemory>
    ensures { OnOk result (text.new.items ≡ text.old.items ++ fraction_text f) }
{
    put_number(text, f.num)?;
    put(text, b"/")?;
    put_number(text, f.den)?;
    put(text, b"\n")
}

pub(crate) fn put_model(text: &mut Bytes, model: ModelName) -> Result<(), NoMemory>
    ensures { OnOk result (text.new.items ≡ text.old.items ++ model_line model) }
{
    put(text, b"model ")?;
    put(text, model_text(model).as_bytes())?;
    put(text, b"\n")
}
