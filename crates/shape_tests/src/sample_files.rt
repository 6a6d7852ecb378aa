//! Files of a few instances.
use bim_model::BuildError;
use p21_reader::{Exchange, read};
use std::alloc::{AllocError, Global};

/// The texts, one behind the other.
pub fn joined(alloc: Global, parts: &[&str]) -> Result<String, AllocError> {
    let mut text = String::new(alloc);
    for part in parts {
        text.push_str(part)?;
    }
    Ok(text)
}

/// The instances of a file whose data are these texts, one behind the other.
pub fn exchange_of(alloc: Global, parts: &[&str]) -> Result<Exchange, BuildError> {
    let data = joined(alloc, parts)?;
    let exchange = exchange_in(alloc, data.as_str());
    drop(data);
    exchange
}

fn exchange_in(alloc: Global, data: &str) -> Result<Exchange, BuildError> {
    let parts = [
        "ISO-10303-21;HEADER;FILE_SCHEMA(('IFC4'));ENDSEC;DATA;",
        data,
        "ENDSEC;END-ISO-10303-21;",
    ];
    let text = joined(alloc, &parts)?;
    let exchange = read(alloc, text.as_bytes());
    drop(text);
    exchange
}
