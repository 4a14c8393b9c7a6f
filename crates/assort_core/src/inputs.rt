//! The files of a request, loaded and judged one after the other.
ghost use Rattle.std.specs.Prelude.{◌≡◌, ◌≢◌, ◌≤◌, ◌<◌, ℕ, Some, None, Ok, Err, IfOk, IfErr, OnOk, IsTrue, length, slice_get};
ghost use Rattle.offer_model.specs.declared.products.ModelName.TheVariants as model;
ghost use Rattle.offer_io.specs.Stores.{Passes};
ghost use Rattle.catalogue_rows.specs.declared.faults.FileName.TheVariants.{Products, Arcs};
ghost use Rattle.catalogue_rows.specs.Faults.{OnFault};
ghost use Rattle.catalogue_rows.specs.Sizes.{most_table};
ghost use Rattle.assort_words.specs.Asked.{asked_arcs};
ghost use Rattle.assort_core.specs.Stages.{no_inputs, problem_tables, table_outcome, table_stage, stages, model_asked, asked_problem, FitTogether};
ghost use Rattle.assort_core.specs.Judged.{stage_given, GivesBefore};
ghost use Rattle.assort_core.specs.Solutions.{HasRows};
ghost use Rattle.assort_core.specs.Subjects.{GivesSubject};
ghost use Rattle.assort_core.specs.Stops.{WhyStopped, WhyUnloaded};

use crate::chain_inputs::read_chain_subject;
use crate::stop::Stop;
use crate::subject::Subject;
use crate::task::Task;
use catalogue::{
    Catalogue, Code, FileName, InputFault, MOST_TABLE, SegmentTable, problem_of, read_limits,
    read_products, read_segments,
};
use offer_io::{LoadFault, Store, load};
use offer_model::{Bytes, Limits, ModelName, NoMemory, Problem};
use std::alloc::Global;
use std::marker::Model;

/// The tables that a problem may have, in the order of work.
pub(crate) const TABLES: [FileName; 3] = [FileName::Products, FileName::Limits, FileName::Segments];

/// What the tables of a problem give. A part whose table isn't named is empty.
#[derive(Drop)]
pub(crate) struct Tables {
    pub(crate) catalogue: Catalogue,
    limits: Limits,
    pub(crate) segments: SegmentTable,
}

impl Model for Tables {
    ghost use Rattle.std.specs.Prelude.{[]};
    ghost use Rattle.assort_core.specs.Stages.{InputsData};

    ghost Value = { InputsData };

    ghost view = { λ t. record { rows = t.catalogue; limits = t.limits.items; segments = t.segments; arcs = []; proof = [] } };
}

/// The bytes of an input that isn't above its limit. Every table of every command is read by this call.
#[tactic(auto, using(crate::proofs::InputLemmas::files_stand))]
pub(crate) fn load_input<S: Store>(
    alloc: Global,
    store: &mut S,
    file: FileName,
    name: &str,
    most: usize,
) -> Result<Bytes, Stop>
    ensures passes { Passes (S.view store.old) (S.view store.new) }
    ensures content { IfOk result (λ bytes. IsTrue (S.view store.old).tells → (S.view store.old).file name.now ≡ Some bytes.items) }
    ensures fits { IfOk result (λ bytes. length bytes.items ≤ most) }
    ensures stopped { IfErr result (WhyUnloaded file name.now most (S.view store.old) (S.view store.new)) }
{
    match load(alloc, store, name, most) {
        Ok(bytes) => Ok(bytes),
        Err(LoadFault::ReadFault) => Err(Stop::Unread(file)),
        Err(LoadFault::TooLong) => Err(Stop::Faulty(file, 0, Code::TooLarge)),
        Err(LoadFault::NoMemory) => Err(Stop::NoMemory),
    }
}

impl Tables {
    /// What there is before any table.
    fn empty(alloc: Global) -> Tables
        ensures { result ≡ no_inputs }
    {
        Tables {
            catalogue: Catalogue::empty(alloc),
            limits: Limits::new(alloc),
            segments: SegmentTable::empty(alloc),
        }
    }

    /// Takes over what the bytes of a table give.
    fn put(
        &mut self,
        alloc: Global,
        task: &Task<'_>,
        file: FileName,
        bytes: &[u8],
    ) -> Result<(), InputFault>
        requires known { file ≢ Arcs }
        requires first { file ≡ Products → self.old ≡ no_inputs }
        requires fit { FitTogether task.now self.old }
        requires size { length bytes.now ≤ most_table }
        ensures given { OnOk result (table_outcome file task.now self.old bytes.now ≡ Ok self.new) }
        ensures fit { OnOk result (FitTogether task.now self.new) }
        ensures fault { IfErr result (λ e. OnFault e (table_outcome file task.now self.old bytes.now ≡ Err e)) }
    {
        match file {
            FileName::Products => self.catalogue = read_products(alloc, bytes, task.model())?,
            FileName::Limits => self.limits = read_limits(alloc, bytes, &self.catalogue)?,
            FileName::Segments => {
                self.segments = read_segments(alloc, bytes, &self.catalogue, task.unit())?;
            }
            FileName::Arcs | FileName::Proof | FileName::Offer => {}
        }
        Ok(())
    }
}

/// Reads a table where the request names it.
fn read_table<S: Store>(
    alloc: Global,
    task: &Task<'_>,
    store: &mut S,
    file: FileName,
    tables: &mut Tables,
) -> Result<(), Stop>
    requires known { file ≢ Arcs }
    requires first { file ≡ Products → tables.old ≡ no_inputs }
    requires fit { FitTogether task.now tables.old }
    ensures passes { Passes (S.view store.old) (S.view store.new) }
    ensures given { OnOk result (IsTrue (S.view store.old).tells
        → stage_given (table_stage task.now file) tables.old (S.view store.old).file ≡ Some (Ok tables.new)) }
    ensures fit { OnOk result (FitTogether task.now tables.new) }

    // Where this is stage k, and the stages before it give what there is.
    ensures stopped { IfErr result (λ stop. (k : ℕ) → slice_get (stages task.now) k ≡ Some (table_stage task.now file)
        → (IsTrue (S.view store.old).tells → GivesBefore k task.now (S.view store.old) tables.old)
        → WhyStopped task.now (S.view store.old) (S.view store.new) stop) }
{
    let Some(name) = task.table(file) else {
        return Ok(());
    };
    let bytes = match load_input(alloc, store, file, name, MOST_TABLE) {
        Err(stop) => return Err(stop),
        Ok(bytes) => bytes,
    };
    Ok(tables.put(alloc, task, file, bytes.as_slice())?)
}

/// What the tables of a request give, one after the other.
pub(crate) fn read_tables<S: Store>(
    alloc: Global,
    task: &Task<'_>,
    store: &mut S,
) -> Result<Tables, Stop>
    ensures passes { Passes (S.view store.old) (S.view store.new) }
    ensures given { IfOk result (λ t. IsTrue (S.view store.old).tells → GivesBefore (length problem_tables) task.now (S.view store.old) t) }
    ensures fit { IfOk result (FitTogether task.now) }
    ensures stopped { IfErr result (WhyStopped task.now (S.view store.old) (S.view store.new)) }
{
    let mut tables = Tables::empty(alloc);
    for k in 0..TABLES.len() {
        match read_table(alloc, task, store, TABLES[k], &mut tables) {
            Err(stop) => return Err(stop),
            Ok(()) => {}
        }
    }
    Ok(tables)
}

/// The problem that the tables make.
pub(crate) fn problem_asked(
    alloc: Global,
    task: &Task<'_>,
    tables: &Tables,
) -> Result<Problem, NoMemory>
    requires model { model_asked task.now ≢ model.Chain }
    requires fit { FitTogether task.now tables.now }
    ensures { IfOk result (λ p. p ≡ asked_problem task.now tables.now) }
{
    problem_of(
        alloc,
        &tables.catalogue,
        task.model(),
        task.none(),
        task.unit(),
        &tables.segments,
        &tables.limits,
    )
}

/// The problem of a request, from its tables.
pub(crate) fn read_problem<S: Store>(
    alloc: Global,
    task: &Task<'_>,
    store: &mut S,
) -> Result<Subject, Stop>
    requires model { model_asked task.now ≢ model.Chain }
    requires arcs { asked_arcs task.now ≡ None }
    ensures passes { Passes (S.view store.old) (S.view store.new) }
    ensures rows { IfOk result HasRows }
    ensures given { IfOk result (λ s. IsTrue (S.view store.old).tells → GivesSubject task.now (S.view store.old) s) }
    ensures stopped { IfErr result (WhyStopped task.now (S.view store.old) (S.view store.new)) }
{
    let tables = match read_tables(alloc, task, store) {
        Err(stop) => return Err(stop),
        Ok(tables) => tables,
    };
    let problem = problem_asked(alloc, task, &tables)?;
    Ok(Subject::Problem(tables.catalogue, problem))
}

/// What a request is about, from its files.
pub(crate) fn read_subject<S: Store>(
    alloc: Global,
    task: &Task<'_>,
    store: &mut S,
) -> Result<Subject, Stop>
    ensures passes { Passes (S.view store.old) (S.view store.new) }
    ensures rows { IfOk result HasRows }
    ensures given { IfOk result (λ s. IsTrue (S.view store.old).tells → GivesSubject task.now (S.view store.old) s) }
    ensures stopped { IfErr result (WhyStopped task.now (S.view store.old) (S.view store.new)) }
{
    match task.model() {
        ModelName::Chain => read_chain_subject(alloc, task, store),
        ModelName::Logit | ModelName::Attract | ModelName::Mixed => {
            read_problem(alloc, task, store)
        }
    }
}
