//! A request with all that its command needs.
ghost use Rattle.std.specs.Prelude.{◌≡◌, ◌≢◌, ◌≤◌, Some, None, unwrap_or};
ghost use Rattle.std.specs.Option.{option_copied};
ghost use Rattle.offer_model.specs.Validity.{IsPositiveAmount};
ghost use Rattle.offer_model.specs.declared.products.ModelName.TheVariants as name;
ghost use Rattle.assort_words.specs.declared.usage.Command.TheVariants as command;
ghost use Rattle.assort_words.specs.Asked.{asked_of, asked_products, asked_limits, asked_segments, asked_arcs, asked_proof, asked_workers, asked_offer, asked_save};
ghost use Rattle.assort_core.specs.Stages.{model_asked, none_of, unit_of, away_of, scale_of, seed_of, count_of, table_name, NamesNoTable};

use assort_words::{Command, Request, UsageFault, read_words};
use catalogue::FileName;
use offer_model::{ModelName, Texts};
use std::marker::Model;

/// The unit where none is given: a hundredth of a margin unit.
pub const USUAL_UNIT: u64 = 100;

/// A request that is complete: each part that its command and its model need is there.
#[derive(Drop)]
pub(crate) struct Task<'a> {
    request: Request<'a>,
}

impl<'a> Model for Task<'a> {
    ghost use Rattle.assort_words.specs.Asked.{RequestData, IsComplete};

    ghost Value = { RequestData };

    ghost view = { λ t. t.request };

    ghost invariant = { λ t. IsComplete t.request };
}

impl<'a> Task<'a> {
    pub(crate) fn command(&self) -> Command
        ensures { result ≡ self.now.command }
    {
        self.request.command()
    }

    pub(crate) fn model(&self) -> ModelName
        ensures value { result ≡ model_asked self.now }

        // What is of no use to a model isn't given.
        ensures arcs { model_asked self.now ≢ name.Chain → asked_arcs self.now ≡ None }
        ensures limits { model_asked self.now ≡ name.Chain → asked_limits self.now ≡ None }
        ensures segments { model_asked self.now ≡ name.Chain → asked_segments self.now ≡ None }
    {
        self.request.model().unwrap_or(ModelName::Logit)
    }

    /// The name of a table, where the request gives one.
    pub(crate) fn table(&self, file: FileName) -> Option<&'a str>
        ensures { option_copied result ≡ table_name file self.now }
    {
        match file {
            FileName::Products => self.request.products(),
            FileName::Limits => self.request.limits(),
            FileName::Segments => self.request.segments(),
            FileName::Arcs => self.request.arcs(),
            FileName::Proof | FileName::Offer => None,
        }
    }

    /// The name of the products file of a chain.
    pub(crate) fn products(&self) -> &'a str
        requires { model_asked self.now ≡ name.Chain }
        ensures { asked_products self.now ≡ Some result.now }
    {
        self.request.products().unwrap()
    }

    /// The name of the arcs file of a chain.
    pub(crate) fn arcs(&self) -> &'a str
        requires { model_asked self.now ≡ name.Chain }
        ensures { asked_arcs self.now ≡ Some result.now }
    {
        self.request.arcs().unwrap()
    }

    /// The weight of the customers of a chain who arrive at no product, 0 where none is given.
    pub(crate) fn away(&self) -> u64
        ensures value { result ≡ away_of self.now }
        ensures range { result ≤ 1000000000 }
    {
        self.request.away().unwrap_or(0)
    }

    /// The parts in which a chain counts the customers at a product.
    pub(crate) fn scale(&self) -> u64
        ensures value { result ≡ scale_of self.now }
        ensures range { (1 ≤ result) × (result ≤ 10000) }
    {
        self.request.scale().unwrap_or(1)
    }

    /// The weight of buying nothing, 1 where none is given.
    pub(crate) fn none(&self) -> u64
        ensures value { result ≡ none_of self.now }
        ensures valid { IsPositiveAmount result }
    {
        self.request.none().unwrap_or(1)
    }

    /// The unit, 1 but under mixed logit.
    pub(crate) fn unit(&self) -> u64
        ensures value { result ≡ unit_of self.now }
        ensures valid { IsPositiveAmount result }
    {
        match self.model() {
            ModelName::Mixed => self.request.unit().unwrap_or(USUAL_UNIT),
            ModelName::Logit | ModelName::Attract | ModelName::Chain => 1,
        }
    }

    /// The number of threads that search, 1 where none is given.
    pub(crate) fn workers(&self) -> u64
        ensures value { result ≡ unwrap_or (asked_workers self.now) 1 }
        ensures range { (1 ≤ result) × (result ≤ 64) }
    {
        self.request.workers().unwrap_or(1)
    }

    /// The name of the proof that is written, where one is asked for.
    pub(crate) fn proof(&self) -> Option<&'a str>
        ensures { option_copied result ≡ asked_proof self.now }
    {
        self.request.proof()
    }

    /// The name of the proof that is checked.
    pub(crate) fn checked_proof(&self) -> &'a str
        requires { self.now.command ≡ command.Check }
        ensures { asked_proof self.now ≡ Some result.now }
    {
        self.request.proof().unwrap()
    }

    /// The word of the assortment that is judged.
    pub(crate) fn offer(&self) -> &'a str
        requires { self.now.command ≡ command.Eval }
        ensures word { asked_offer self.now ≡ Some result.now }

        // No chain is judged.
        ensures known { model_asked self.now ≢ name.Chain }
        ensures arcs { asked_arcs self.now ≡ None }
    {
        self.request.offer().unwrap()
    }

    /// The seed of trial inputs.
    pub(crate) fn seed(&self) -> u64
        ensures { result ≡ seed_of self.now }
    {
        self.request.seed().unwrap_or(0)
    }

    /// The number of products of trial inputs, which are read from no file.
    pub(crate) fn count(&self) -> u64
        requires { self.now.command ≡ command.Trial }
        ensures value { result ≡ count_of self.now }
        ensures range { result ≤ 256 }
        ensures alone { NamesNoTable self.now }
    {
        self.request.count().unwrap_or(0)
    }

    /// The name of the catalogue that is saved, where one is asked for.
    pub(crate) fn save(&self) -> Option<&'a str>
        ensures { option_copied result ≡ asked_save self.now }
    {
        self.request.save()
    }
}

/// The task of the words, or their first refusal. It takes no memory.
pub(crate) fn read_task<'a>(words: &'a Texts) -> Result<Task<'a>, UsageFault>
    ensures { result ≡ asked_of words.now }
{
    match read_words(words) {
        Err(fault) => Err(fault),
        Ok(request) => Ok(Task { request }),
    }
}
