//! One row of a limits file: the limit that it states, or what is wrong with it.
ghost use Rattle.std.specs.Prelude.{◌≡◌, ℕ, ◌<◌, ◌&&◌, not, length, count_by, nat_lt, IfOk, IfErr, OnOk, Some, None};
ghost use Rattle.std.specs.List.{list_any};
ghost use Rattle.offer_model.specs.declared.ranges.TheConstants.{MOST_REQUIRES};
ghost use Rattle.offer_model.specs.Validity.{is_requires};
ghost use Rattle.catalogue_rows.specs.Rows.{HasNumbers};
ghost use Rattle.catalogue.specs.LimitTables.{limit_by, limit_under, stated_limit, limits_before, repeats, fields_fault, limit_fault};

use crate::limit_columns::{FIRST, KIND, LIMIT_COLUMNS, NUMBER, SECOND};
use crate::limit_kinds::{LimitKind, kind_named};
use crate::limit_names::{category_named, ladder_named, product_named};
use catalogue_rows::{Code, Row, cell, parse_number};
use offer_model::{Limit, Limits, MOST_COUNT, MOST_LIMITS, MOST_REQUIRES};
use table_reader::Table;

/// The limit of this kind that data row `k` states, or what is wrong with the fields that the kind uses.
fn limit_of_kind(
    table: &Table<LIMIT_COLUMNS>,
    k: usize,
    rows: &[Row],
    kind: LimitKind,
) -> Result<Limit, Code>
    requires row { k < length table.now.records }
    requires numbered { HasNumbers rows.now }
    ensures limit { IfOk result (λ limit. limit ≡ limit_under rows.now table.now k kind) }
    ensures sound { OnOk result (fields_fault rows.now table.now k kind ≡ None) }
    ensures fault { IfErr result (λ code. fields_fault rows.now table.now k kind ≡ Some code) }
{
    let first = cell(table, k, FIRST);
    let second = cell(table, k, SECOND);
    let number = cell(table, k, NUMBER);
    match kind {
        LimitKind::Total => Ok(Limit::Total(parse_number(number, 0, MOST_COUNT)?)),
        LimitKind::Category => {
            let category = category_named(rows, first).ok_or(Code::UnknownName)?;
            Ok(Limit::Category(category, parse_number(number, 0, MOST_COUNT)?))
        }
        LimitKind::Requires => {
            let a = product_named(rows, first).ok_or(Code::UnknownName)?;
            let b = product_named(rows, second).ok_or(Code::UnknownName)?;
            Ok(Limit::Requires(a, b))
        }
        LimitKind::Shelf => Ok(Limit::Shelf(parse_number(number, 0, MOST_COUNT)?)),
        LimitKind::Ladder => {
            let ladder = ladder_named(rows, first).ok_or(Code::UnknownName)?;
            Ok(Limit::Ladder(ladder))
        }
    }
}

/// Whether two limits have the same kind and name the same.
fn repeats(limit: Limit, other: Limit) -> bool
    ensures { result ≡ repeats limit other }
{
    match (limit, other) {
        (Limit::Total(_), Limit::Total(_)) | (Limit::Shelf(_), Limit::Shelf(_)) => true,
        (Limit::Category(c, _), Limit::Category(d, _)) => c == d,
        (Limit::Requires(a, b), Limit::Requires(c, d)) => a == c && b == d,
        (Limit::Ladder(l), Limit::Ladder(m)) => l == m,
        _ => false,
    }
}

/// Whether the limit repeats one of these.
fn is_repeated(limit: Limit, limits: &Limits) -> bool
    ensures { result ≡ list_any (repeats limit) limits.now.items }
{
    for k in 0..limits.len() {
        if repeats(limit, *limits.get(k)) {
            return true;
        }
    }
    false
}

/// Whether there is no place for one more limit of this kind after so many of the kind `requires`.
fn is_full(kind: LimitKind, pairs: usize) -> bool
    ensures { (first second number : ℕ)
        → result ≡ (is_requires (limit_by kind first second number) && not (nat_lt pairs MOST_REQUIRES)) }
{
    match kind {
        LimitKind::Requires => pairs >= MOST_REQUIRES,
        LimitKind::Total | LimitKind::Category | LimitKind::Shelf | LimitKind::Ladder => false,
    }
}

/// The limit that data row `k` states, or what is wrong with it. `limits` are those of the rows before it, `pairs` of them of
/// the kind `requires`.
pub fn read_limit(
    table: &Table<LIMIT_COLUMNS>,
    k: usize,
    rows: &[Row],
    limits: &Limits,
    pairs: usize,
) -> Result<Limit, Code>
    requires row { k < length table.now.records }
    requires numbered { HasNumbers rows.now }
    requires limits { limits.now.items ≡ limits_before rows.now table.now k }
    requires pairs { pairs ≡ count_by is_requires limits.now.items }
    ensures limit { IfOk result (λ limit. limit ≡ stated_limit rows.now table.now k) }
    ensures sound { OnOk result (limit_fault rows.now table.now k ≡ None) }
    ensures fault { IfErr result (λ code. limit_fault rows.now table.now k ≡ Some code) }
{
    if k >= MOST_LIMITS {
        return Err(Code::TooManyLines);
    }
    let kind = kind_named(cell(table, k, KIND)).ok_or(Code::UnknownKind)?;
    if is_full(kind, pairs) {
        return Err(Code::TooManyLines);
    }
    let limit = limit_of_kind(table, k, rows, kind)?;
    if is_repeated(limit, limits) {
        return Err(Code::RepeatedLimit);
    }
    Ok(limit)
}
