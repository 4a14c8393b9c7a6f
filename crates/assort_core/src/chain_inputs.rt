//! The chain of a request, from its two files.
ghost use Rattle.std.specs.Prelude.{◌≡◌, ◌<◌, None, IfOk, IfErr, IsTrue, sum_by};
ghost use Rattle.offer_model.specs.declared.products.ModelName.TheVariants as model;
ghost use Rattle.offer_io.specs.Stores.{Passes};
ghost use Rattle.arc_tables.specs.ArcTables.{chain_data_of};
ghost use Rattle.assort_words.specs.Asked.{asked_limits, asked_segments};
ghost use Rattle.assort_core.specs.Stages.{no_inputs, model_asked, scale_of, away_of};
ghost use Rattle.assort_core.specs.Judged.{GivesBefore};
ghost use Rattle.assort_core.specs.Solutions.{HasRows};
ghost use Rattle.assort_core.specs.Subjects.{GivesSubject};
ghost use Rattle.assort_core.specs.Stops.{WhyStopped};

use crate::inputs::load_input;
use crate::stop::Stop;
use crate::subject::Subject;
use crate::task::Task;
use arc_tables::read_chain;
use catalogue::{Catalogue, FileName, MOST_TABLE, read_products};
use offer_io::Store;
use offer_model::{Chain, ModelName};
use std::alloc::Global;

/// The catalogue of a chain, at which some customers arrive.
fn read_catalogue<S: Store>(
    alloc: Global,
    task: &Task<'_>,
    store: &mut S,
) -> Result<Catalogue, Stop>
    requires { model_asked task.now ≡ model.Chain }
    ensures passes { Passes (S.view store.old) (S.view store.new) }
    ensures arrive { IfOk result (λ rows. 0 < sum_by (λ row. row.arrival) rows) }
    ensures given { IfOk result (λ rows. IsTrue (S.view store.old).tells → GivesBefore 1 task.now (S.view store.old) (record no_inputs { rows = rows })) }
    ensures stopped { IfErr result (WhyStopped task.now (S.view store.old) (S.view store.new)) }
{
    let bytes = match load_input(
        alloc,
        store,
        FileName::Products,
        task.products(),
        MOST_TABLE,
    ) {
        Err(stop) => return Err(stop),
        Ok(bytes) => bytes,
    };
    Ok(read_products(alloc, bytes.as_slice(), ModelName::Chain)?)
}

/// The chain of a catalogue, from its arcs file.
fn read_arcs<S: Store>(
    alloc: Global,
    task: &Task<'_>,
    store: &mut S,
    catalogue: &Catalogue,
) -> Result<Chain, Stop>
    requires model { model_asked task.now ≡ model.Chain }
    requires arrive { 0 < sum_by (λ row. row.arrival) catalogue.now }
    ensures passes { Passes (S.view store.old) (S.view store.new) }
    ensures chain { IfOk result (λ chain. chain ≡ chain_data_of catalogue.now (scale_of task.now) (away_of task.now) chain.arcs) }

    // after the files before it
    ensures given { IfOk result (λ chain. IsTrue (S.view store.old).tells
        → GivesBefore 3 task.now (S.view store.old) (record no_inputs { rows = catalogue.now })
        → GivesBefore 4 task.now (S.view store.old) (record no_inputs { rows = catalogue.now; arcs = chain.arcs })) }
    ensures stopped { IfErr result (λ stop. (IsTrue (S.view store.old).tells
        → GivesBefore 3 task.now (S.view store.old) (record no_inputs { rows = catalogue.now }))
        → WhyStopped task.now (S.view store.old) (S.view store.new) stop) }
{
    let bytes = match load_input(alloc, store, FileName::Arcs, task.arcs(), MOST_TABLE) {
        Err(stop) => return Err(stop),
        Ok(bytes) => bytes,
    };
    Ok(read_chain(
        alloc,
        bytes.as_slice(),
        catalogue,
        task.away(),
        task.scale(),
    )?)
}

/// The chain of a request, from its products and its arcs.
pub(crate) fn read_chain_subject<S: Store>(
    alloc: Global,
    task: &Task<'_>,
    store: &mut S,
) -> Result<Subject, Stop>
    requires model { model_asked task.now ≡ model.Chain }
    requires limits { asked_limits task.now ≡ None }
    requires segments { asked_segments task.now ≡ None }
    ensures passes { Passes (S.view store.old) (S.view store.new) }
    ensures rows { IfOk result HasRows }
    ensures given { IfOk result (λ s. IsTrue (S.view store.old).tells → GivesSubject task.now (S.view store.old) s) }
    ensures stopped { IfErr result (WhyStopped task.now (S.view store.old) (S.view store.new)) }
{
    let catalogue = match read_catalogue(alloc, task, store) {
        Err(stop) => return Err(stop),
        Ok(catalogue) => catalogue,
    };
    let chain = match read_arcs(alloc, task, store, &catalogue) {
        Err(stop) => return Err(stop),
        Ok(chain) => chain,
    };
    Ok(Subject::Chain(catalogue, chain))
}
