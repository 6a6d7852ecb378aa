//! Files of a few instances.
use bim_model::BuildError;
use p21_reader::{Exchange, read};
use std::alloc::{AllocError, Global};

/// The bytes, one behind the other.
pub fn joined(alloc: Global, parts: &[&[u8]]) -> Result<Vec<u8>, AllocError> {
    let mut whole = Vec::new(alloc);
    for part in parts {
        whole.extend_from_slice(part)?;
    }
    Ok(whole)
}

/// The bytes of a file with these data.
pub fn file_of(alloc: Global, data: &[u8]) -> Result<Vec<u8>, AllocError> {
    let parts = [
        b"ISO-10303-21;HEADER;FILE_SCHEMA(('IFC4'));ENDSEC;DATA;".as_slice(),
        data,
        b"ENDSEC;END-ISO-10303-21;".as_slice(),
    ];
    joined(alloc, &parts)
}

/// The instances of a file with these data.
pub fn exchange_of(alloc: Global, data: &[u8]) -> Result<Exchange, BuildError> {
    let bytes = file_of(alloc, data)?;
    let exchange = read(alloc, bytes.as_slice());
    drop(bytes);
    exchange
}

/// The instances of a file whose data are these bytes, one behind the other.
pub fn exchange_in_parts(alloc: Global, parts: &[&[u8]]) -> Result<Exchange, BuildError> {
    let data = joined(alloc, parts)?;
    let exchange = exchange_of(alloc, data.as_slice());
    drop(data);
    exchange
}
