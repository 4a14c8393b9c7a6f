//! Problems: what is to be chosen from.
ghost use Rattle.std.specs.Prelude.{◌≡◌};
ghost use Rattle.offer_model.specs.Validity.{IsProblem};

use crate::lists::{Limits, Products, Segments};
use crate::products::ModelName;
use std::marker::Model;

/// What is to be chosen from: the products, the customers' segments and the limits.
#[derive(Drop)]
pub struct Problem {
    model: ModelName,
    unit: u64,
    products: Products,
    segments: Segments,
    limits: Limits,
}

impl Model for Problem {
    ghost use Rattle.offer_model.specs.Problems.{ProblemData};
    ghost use Rattle.offer_model.specs.Validity.{IsProblem};

    ghost Value = { ProblemData };

    ghost view = { λ p. record { model = p.model; unit = p.unit; products = p.products.items; segments = p.segments.items; limits = p.limits.items } };

    ghost invariant = { λ p. IsProblem (record { model = p.model; unit = p.unit; products = p.products.items; segments = p.segments.items; limits = p.limits.items }) };
}

impl Problem {
    pub fn new(
        model: ModelName,
        unit: u64,
        products: Products,
        segments: Segments,
        limits: Limits,
    ) -> Problem
        requires { IsProblem (record { model = model; unit = unit; products = products.items; segments = segments.items; limits = limits.items }) }
        ensures { result ≡ record { model = model; unit = unit; products = products.items; segments = segments.items; limits = limits.items } }
    {
        Problem {
            model,
            unit,
            products,
            segments,
            limits,
        }
    }

    pub fn model(&self) -> ModelName
        ensures value { result ≡ self.now.model }
        ensures valid { IsProblem self.now }
    {
        self.model
    }

    /// What a mixed revenue is rounded down to, as parts of a margin unit; 1 under the other models.
    pub fn unit(&self) -> u64
        ensures value { result ≡ self.now.unit }
        ensures valid { IsProblem self.now }
    {
        self.unit
    }

    pub fn products(&self) -> &Products
        ensures value { result.now.items ≡ self.now.products }
        ensures valid { IsProblem self.now }
    {
        &self.products
    }

    pub fn segments(&self) -> &Segments
        ensures value { result.now.items ≡ self.now.segments }
        ensures valid { IsProblem self.now }
    {
        &self.segments
    }

    pub fn limits(&self) -> &Limits
        ensures value { result.now.items ≡ self.now.limits }
        ensures valid { IsProblem self.now }
    {
        &self.limits
    }
}
