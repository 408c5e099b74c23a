//! Kinds of keys, as stores have them.
use bench_kit::Numbers;
use std::alloc::AllocError;

/// What keys are like.
#[derive(Clone, Copy)]
pub enum Kind {
    /// Eight random bytes.
    Random,
    /// Numbers in a row, as eight bytes.
    Rising,
    /// Sixteen decimal digits of a number below 10^9.
    Digits,
    /// Web addresses of 46 letters.
    Addresses,
    /// A user, a second and a number, of eight bytes each.
    Users,
}

impl Kind {
    /// The kind of this name.
    pub fn named(word: &str) -> Option<Kind> {
        match word {
            "random" => Some(Kind::Random),
            "rising" => Some(Kind::Rising),
            "digits" => Some(Kind::Digits),
            "addresses" => Some(Kind::Addresses),
            "users" => Some(Kind::Users),
            _ => None,
        }
    }

    /// Its name.
    pub fn name(self) -> &'static str {
        match self {
            Kind::Random => "random",
            Kind::Rising => "rising",
            Kind::Digits => "digits",
            Kind::Addresses => "addresses",
            Kind::Users => "users",
        }
    }

    /// Makes `key` the one of this place in a list of keys of the kind. One that is drawn may come twice.
    pub fn write_key(
        self,
        place: usize,
        numbers: &mut Numbers,
        key: &mut Vec<u8>,
    ) -> Result<(), AllocError> {
        key.clear();
        match self {
            Kind::Random => push_number(key, numbers.draw()),
            Kind::Rising => push_number(key, place as u64),
            Kind::Digits => push_decimal(key, numbers.draw_to(999_999_999), 16),
            Kind::Addresses => push_address(key, numbers),
            Kind::Users => push_user(key, numbers),
        }
    }
}

// The eight bytes of a number, highest first.
fn push_number(key: &mut Vec<u8>, number: u64) -> Result<(), AllocError> {
    key.extend_from_slice(&number.to_be_bytes())
}

// The last so many decimal digits of a number.
fn push_decimal(key: &mut Vec<u8>, number: u64, digits: u32) -> Result<(), AllocError> {
    let mut unit = 1u64;
    for _ in 1..digits {
        unit = unit.saturating_mul(10);
    }
    for _ in 0..digits {
        key.push(b'0'.wrapping_add((number / unit.max(1) % 10) as u8))?;
        unit /= 10;
    }
    Ok(())
}

fn push_address(key: &mut Vec<u8>, numbers: &mut Numbers) -> Result<(), AllocError> {
    key.extend_from_slice(b"https://host")?;
    push_decimal(key, numbers.draw_to(999), 3)?;
    key.extend_from_slice(b".example.org/articles/")?;
    push_decimal(key, numbers.draw_to(99), 2)?;
    key.push(b'/')?;
    push_decimal(key, numbers.draw_to(999_999), 6)
}

// One of 1,000 users, and one of 10^7 seconds.
fn push_user(key: &mut Vec<u8>, numbers: &mut Numbers) -> Result<(), AllocError> {
    push_number(key, numbers.draw_to(999))?;
    push_number(
        key,
        numbers.draw_to(9_999_999).saturating_add(1_700_000_000),
    )?;
    push_number(key, numbers.draw())
}
