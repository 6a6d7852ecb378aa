//! The model of a file: what one walk over it finds, and where that finds a fault, what all checks say.
ghost use Rattle.std.specs.Prelude.{List, Ok, IfOk, IfErr};
ghost use Rattle.bim_model.specs.declared.upload.Mode.{Mode};
ghost use Rattle.p21_values.specs.declared.value.Instance.{Instance};
ghost use Rattle.model_walk.specs.Walked.{IsWalked};
ghost use Rattle.model_build.specs.StageFaults.{IsClear};
ghost use Rattle.model_build.specs.inner.Outcomes.{IsErrorOf};
ghost use Rattle.model_build.specs.Profile.{IsModelOf, Profile, IsCause};
ghost use Rattle.model_build.specs.Stages.{FileFault};

use crate::order::in_order;
use crate::stages::build_file;
use bim_model::{BuildError, Bytes, Mode, Model};
use model_walk::{Walked, walk};
use p21_reader::{read, read_owned};
use p21_table::Exchange;
use std::alloc::{AllocError, Global};

/// The model of the elements that a walk found, each surface made in its place.
fn model_of_walked(alloc: Global, walked: Walked) -> Result<Model, AllocError>
    requires { (world : List Instance) × (mode : Mode) × IsWalked world mode walked }
    ensures { (world : List Instance) (mode : Mode) → IsWalked world mode walked
        → IfOk result (λ model. IsClear (FileFault world mode) × IsModelOf world mode model) }
{
    let elements = walked.into_elements(alloc)?;
    Model::of(alloc, in_order(elements))
}

/// The model of the instances of a file, or their first fault. The file is let go before surfaces are made.
fn build_exchange(alloc: Global, exchange: Exchange, mode: Mode) -> Result<Model, BuildError>
    ensures model { IfOk result (λ model. IsClear (FileFault exchange mode)
        × IsModelOf exchange mode model) }
    ensures fault { IfErr result (IsErrorOf (FileFault exchange mode)) }
{
    match walk(alloc, &exchange, mode)? {
        Some(walked) => {
            drop(exchange);
            Ok(model_of_walked(alloc, walked)?)
        }
        None => build_file(alloc, exchange, mode),
    }
}

/// The model that the bytes of a file make (IFC4 ADD2 TC1, in the clear text encoding of ISO 10303-21): its elements that have a body, with
/// their surfaces in grid numbers. A fault is that of the first check that finds one, in it the one with the least place or number. Lengths
/// off the grid are refused in exact mode, and rounded in snap mode.
pub fn build(alloc: Global, bytes: &[u8], mode: Mode) -> Result<Model, BuildError>
    ensures model { IfOk result (λ model. Profile bytes.now mode (Ok model)) }
    ensures fault { IfErr result (λ error. IsCause bytes.now mode error) }
{
    match read(alloc, bytes) {
        Ok(exchange) => build_exchange(alloc, exchange, mode),
        Err(error) => Err(error),
    }
}

/// The same of bytes that it owns.
pub fn build_owned(alloc: Global, bytes: Bytes, mode: Mode) -> Result<Model, BuildError>
    ensures model { IfOk result (λ model. Profile bytes mode (Ok model)) }
    ensures fault { IfErr result (λ error. IsCause bytes mode error) }
{
    match read_owned(alloc, bytes) {
        Ok(exchange) => build_exchange(alloc, exchange, mode),
        Err(error) => Err(error),
    }
}
