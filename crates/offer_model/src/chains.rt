//! Markov chains: where customers arrive, and how those who don't find a product move on.
ghost use Rattle.std.specs.Prelude.{◌≡◌};
ghost use Rattle.offer_model.specs.ChainValidity.{IsChain};

use crate::lists::{Arcs, Numbers};
use std::marker::Model;

/// A Markov chain: each product's margin and arrivals, the arcs between products in parts of the scale, and the
/// weight of the customers who arrive at no product.
#[derive(Drop)]
pub struct Chain {
    scale: u64,
    away: u64,
    margins: Numbers,
    arrivals: Numbers,
    arcs: Arcs,
}

impl Model for Chain {
    ghost use Rattle.offer_model.specs.Chains.{ChainData};
    ghost use Rattle.offer_model.specs.ChainValidity.{IsChain};

    ghost Value = { ChainData };

    ghost view = { λ c. record { scale = c.scale; away = c.away; margins = c.margins.items; arrivals = c.arrivals.items; arcs = c.arcs.items } };

    ghost invariant = { λ c. IsChain (record { scale = c.scale; away = c.away; margins = c.margins.items; arrivals = c.arrivals.items; arcs = c.arcs.items }) };
}

impl Chain {
    pub fn new(scale: u64, away: u64, margins: Numbers, arrivals: Numbers, arcs: Arcs) -> Chain
        requires { IsChain (record { scale = scale; away = away; margins = margins.items; arrivals = arrivals.items; arcs = arcs.items }) }
        ensures { result ≡ record { scale = scale; away = away; margins = margins.items; arrivals = arrivals.items; arcs = arcs.items } }
    {
        Chain {
            scale,
            away,
            margins,
            arrivals,
            arcs,
        }
    }

    /// How many parts the customers at a product are counted in, from 1.
    pub fn scale(&self) -> u64
        ensures value { result ≡ self.now.scale }
        ensures valid { IsChain self.now }
    {
        self.scale
    }

    /// The weight of the customers who arrive at no product.
    pub fn away(&self) -> u64
        ensures value { result ≡ self.now.away }
        ensures valid { IsChain self.now }
    {
        self.away
    }

    /// What one sale of each product brings.
    pub fn margins(&self) -> &Numbers
        ensures value { result.now.items ≡ self.now.margins }
        ensures valid { IsChain self.now }
    {
        &self.margins
    }

    /// The weight of the customers who arrive at each product.
    pub fn arrivals(&self) -> &Numbers
        ensures value { result.now.items ≡ self.now.arrivals }
        ensures valid { IsChain self.now }
    {
        &self.arrivals
    }

    /// The moves between products.
    pub fn arcs(&self) -> &Arcs
        ensures value { result.now.items ≡ self.now.arcs }
        ensures valid { IsChain self.now }
    {
        &self.arcs
    }
}
