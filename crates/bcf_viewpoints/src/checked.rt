//! Viewpoints whose components have good identifiers, as their types say.
ghost use Rattle.std.specs.Prelude.{◌≡◌};
ghost use Rattle.bcf_viewpoints.specs.Viewpoints.{IsViewBody};

use crate::view::{ViewBody, ViewIs};
use bim_model::Duplicate;
use std::alloc::{AllocError, Global};
use std::marker::Model;

/// What a client says in a viewpoint, where the identifiers of its components are such. Contracts see what is
/// said.
#[derive(Drop)]
pub struct CheckedBody {
    body: ViewBody,
}

impl Model for CheckedBody {
    ghost use Rattle.bcf_viewpoints.specs.declared.view.ViewBody.{ViewBody};
    ghost use Rattle.bcf_viewpoints.specs.Viewpoints.{IsViewBody};

    ghost Value = { ViewBody };

    ghost view = { λ c. c.body };

    ghost invariant = { λ c. IsViewBody c.body };
}

impl CheckedBody {
    /// This body.
    pub fn of(body: ViewBody) -> CheckedBody
        requires { IsViewBody body }
        ensures { result ≡ body }
    {
        CheckedBody { body }
    }

    /// What is said, lent.
    pub fn get(&self) -> &ViewBody
        ensures same { result.now ≡ self.now }
        ensures good { IsViewBody result.now }
    {
        &self.body
    }
}

impl Duplicate for CheckedBody {
    fn copy(&self, alloc: Global) -> Result<CheckedBody, AllocError> {
        let body = self.body.copy(alloc)?;
        Ok(CheckedBody { body })
    }
}

/// A viewpoint of a topic, where the identifiers of its components are such. Contracts see the viewpoint.
#[derive(Drop)]
pub struct CheckedView {
    view: ViewIs,
}

impl Model for CheckedView {
    ghost use Rattle.bcf_viewpoints.specs.declared.view.ViewIs.{ViewIs};
    ghost use Rattle.bcf_viewpoints.specs.Viewpoints.{IsViewBody};

    ghost Value = { ViewIs };

    ghost view = { λ c. c.view };

    ghost invariant = { λ c. IsViewBody c.view.body };
}

impl CheckedView {
    /// The viewpoint of this number and body.
    pub fn of(serial: u64, body: ViewBody) -> CheckedView
        requires { IsViewBody body }
        ensures { result ≡ record { serial = serial; body = body } }
    {
        CheckedView {
            view: ViewIs { serial, body },
        }
    }

    /// The viewpoint, lent.
    pub fn get(&self) -> &ViewIs
        ensures same { result.now ≡ self.now }
        ensures good { IsViewBody result.now.body }
    {
        &self.view
    }
}
