//! Limits files: from bytes to limits over a catalogue, or to the first fault.
ghost use Rattle.std.specs.Prelude.{◌≡◌, ℕ, ◌≤◌, List, length, Ok, Err, Some, None, IfOk, IfErr, OnOk};
ghost use Rattle.offer_model.specs.declared.products.ModelName.{ModelName};
ghost use Rattle.offer_model.specs.Validity.{HasLimits, is_requires};
ghost use Rattle.catalogue_rows.specs.declared.faults.FileName.TheVariants as file;
ghost use Rattle.catalogue_rows.specs.Sizes.{most_table};
ghost use Rattle.catalogue.specs.CatalogueProblems.{problem_data_of};
ghost use Rattle.catalogue_rows.specs.Faults.{OnFault, first_row_fault};
ghost use Rattle.catalogue_rows.specs.Rows.{HasNumbers};
ghost use Rattle.catalogue.specs.SegmentTables.{NamedSegment};
ghost use Rattle.catalogue.specs.LimitTables.{limit_fault, limits_before, limits_outcome};

use crate::limit_columns::{COLUMNS, LIMIT_COLUMNS};
use crate::limit_rows::read_limit;
use catalogue_rows::{Catalogue, FileName, InputFault, Row, fault_of_table};
use offer_model::{Limit, Limits, MOST_LIMITS};
use std::alloc::Global;
use table_reader::{Table, read_table};

fn is_requires(limit: Limit) -> bool
    ensures { result ≡ is_requires limit }
{
    matches!(limit, Limit::Requires(_, _))
}

/// The limits that the rows of a table state, or the first fault of one.
fn read_rows(
    alloc: Global,
    table: &Table<LIMIT_COLUMNS>,
    rows: &[Row],
) -> Result<Limits, InputFault>
    requires { HasNumbers rows.now }
    ensures limits { IfOk result (λ limits. limits.items ≡ limits_before rows.now table.now (length table.now.records)) }
    ensures sound { OnOk result
        (first_row_fault file.Limits (limit_fault rows.now table.now) 0 (length table.now.records) ≡ None) }
    ensures fault { IfErr result (λ e. OnFault e
        (first_row_fault file.Limits (limit_fault rows.now table.now) 0 (length table.now.records) ≡ Some e)) }
{
    let mut limits = Limits::new(alloc);
    limits.reserve(table.rows().min(MOST_LIMITS))?;
    let mut pairs = 0;
    'rows: for k in 0..table.rows() {
        let limit = match read_limit(table, k, rows, &limits, pairs) {
            Ok(limit) => limit,
            Err(code) => {
                return Err(InputFault::Fault {
                    file: FileName::Limits,
                    row: k + 2,
                    code,
                });
            }
        };
        if is_requires(limit) {
            pairs += 1;
        }
        limits.push(limit);
    }
    Ok(limits)
}

/// The limits in the bytes of a limits file over a catalogue, in file order, or the first fault.
pub fn read_limits(alloc: Global, bytes: &[u8], c: &Catalogue) -> Result<Limits, InputFault>
    requires { length bytes.now ≤ most_table }
    ensures limits { IfOk result (λ limits. limits_outcome c.now bytes.now ≡ Ok limits.items) }
    ensures fits { IfOk result (λ limits. (model : ModelName) (none unit : ℕ) (segments : List NamedSegment)
        → HasLimits (problem_data_of c.now model none unit segments limits.items)) }
    ensures fault { IfErr result (λ e. OnFault e (limits_outcome c.now bytes.now ≡ Err e)) }
{
    let table = match read_table::<LIMIT_COLUMNS>(alloc, bytes, &COLUMNS, &[true; LIMIT_COLUMNS]) {
        Ok(table) => table,
        Err(fault) => return Err(fault_of_table(FileName::Limits, fault)),
    };
    read_rows(alloc, &table, c.rows())
}
