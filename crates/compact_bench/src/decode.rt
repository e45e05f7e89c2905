//! Decoding.

use crate::run::Call;
use crate::text::Text;
use bytes::Buf;
use compact_str::{CompactString, ReserveError};
use std::alloc::Global;

pub struct Decode;

impl<T: Text> Call<T, Vec<u8>> for Decode {
    fn run(alloc: Global, value: &mut T, bytes: &Vec<u8>) -> Result<u64, ReserveError> {
        *value = T::decode(alloc, bytes.as_slice())?;
        Ok(0)
    }
}

pub struct DecodeLossy;

impl<T: Text> Call<T, Vec<u8>> for DecodeLossy {
    fn run(alloc: Global, value: &mut T, bytes: &Vec<u8>) -> Result<u64, ReserveError> {
        *value = T::decode_lossy(alloc, bytes.as_slice())?;
        Ok(0)
    }
}

pub struct DecodeUnits;

impl<T: Text> Call<T, Vec<u16>> for DecodeUnits {
    fn run(alloc: Global, value: &mut T, units: &Vec<u16>) -> Result<u64, ReserveError> {
        *value = T::decode_units(alloc, units.as_slice())?;
        Ok(0)
    }
}

pub struct DecodeUnitsLossy;

impl<T: Text> Call<T, Vec<u16>> for DecodeUnitsLossy {
    fn run(alloc: Global, value: &mut T, units: &Vec<u16>) -> Result<u64, ReserveError> {
        *value = T::decode_units_lossy(alloc, units.as_slice())?;
        Ok(0)
    }
}

/// Decodes two buffers in a row.
pub struct DecodeBuffers;

impl Call<CompactString, Vec<u8>> for DecodeBuffers {
    fn run(alloc: Global, value: &mut CompactString, bytes: &Vec<u8>) -> Result<u64, ReserveError> {
        let (first, last) = bytes.as_slice().split_at(bytes.len() / 2);
        let mut buffer = first.chain(last);
        match CompactString::from_utf8_buf(alloc, &mut buffer) {
            Ok(decoded) => *value = decoded,
            Err(_) => return Err(ReserveError),
        }
        Ok(0)
    }
}

pub struct DecodeLe;

impl Call<CompactString, Vec<u8>> for DecodeLe {
    fn run(alloc: Global, value: &mut CompactString, bytes: &Vec<u8>) -> Result<u64, ReserveError> {
        match CompactString::from_utf16le(alloc, bytes.as_slice()) {
            Ok(decoded) => *value = decoded,
            Err(_) => return Err(ReserveError),
        }
        Ok(0)
    }
}

pub struct DecodeBe;

impl Call<CompactString, Vec<u8>> for DecodeBe {
    fn run(alloc: Global, value: &mut CompactString, bytes: &Vec<u8>) -> Result<u64, ReserveError> {
        match CompactString::from_utf16be(alloc, bytes.as_slice()) {
            Ok(decoded) => *value = decoded,
            Err(_) => return Err(ReserveError),
        }
        Ok(0)
    }
}

pub struct DecodeLeLossy;

impl Call<CompactString, Vec<u8>> for DecodeLeLossy {
    fn run(alloc: Global, value: &mut CompactString, bytes: &Vec<u8>) -> Result<u64, ReserveError> {
        *value = CompactString::from_utf16le_lossy(alloc, bytes.as_slice())?;
        Ok(0)
    }
}
