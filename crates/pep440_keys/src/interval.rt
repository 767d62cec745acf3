//! A half-open interval of sort keys.
ghost use Rattle.std.specs.Option.{option_map_or};
ghost use Rattle.std.specs.Prelude.{◌≡◌, not, option_map, true};
ghost use Rattle.pep440_keys.specs.RangeKeys.{is_below_key, is_within};

use std::marker::Model;

/// The keys from a low one on, if there is one, and below a high one, if there is one.
#[derive(Debug, Drop)]
pub struct KeyInterval {
    low: Option<Vec<u8>>,
    high: Option<Vec<u8>>,
}

impl Model for KeyInterval {
    ghost use Rattle.std.specs.Prelude.{option_map};
    ghost use Rattle.pep440_keys.specs.RangeKeys.{Interval};

    ghost Value = { Interval };

    ghost view = { λ k. (option_map (λ key. key.items) k.low, option_map (λ key. key.items) k.high) };
}

// Whether the key is less, byte by byte.
fn is_below(key: &[u8], other: &[u8]) -> bool
    ensures { result ≡ is_below_key key.now other.now }
{
    key.cmp(other).is_lt()
}

fn is_from_low(low: &Option<Vec<u8>>, key: &[u8]) -> bool
    ensures { result ≡ option_map_or (λ low. not (is_below_key key.now low)) (option_map (λ k. k.items) low.now) true }
{
    match low {
        Some(low) => !is_below(key, low.as_slice()),
        None => true,
    }
}

fn is_below_high(high: &Option<Vec<u8>>, key: &[u8]) -> bool
    ensures { result ≡ option_map_or (λ high. is_below_key key.now high) (option_map (λ k. k.items) high.now) true }
{
    match high {
        Some(high) => is_below(key, high.as_slice()),
        None => true,
    }
}

impl KeyInterval {
    // Between these two.
    pub(crate) fn new(low: Option<Vec<u8>>, high: Option<Vec<u8>>) -> KeyInterval
        ensures { result ≡ (option_map (λ key. key.items) low, option_map (λ key. key.items) high) }
    {
        KeyInterval { low, high }
    }

    /// The least key, or none if every key is great enough. Never allocates.
    pub fn low(&self) -> Option<&[u8]>
        ensures { option_map (λ key. key.now) result ≡ self.now.0 }
    {
        match &self.low {
            Some(key) => Some(key.as_slice()),
            None => None,
        }
    }

    /// The key that is the first one too great, or none if no key is. Never allocates.
    pub fn high(&self) -> Option<&[u8]>
        ensures { option_map (λ key. key.now) result ≡ self.now.1 }
    {
        match &self.high {
            Some(key) => Some(key.as_slice()),
            None => None,
        }
    }

    /// Whether the key is at least the low one and below the high one. Never allocates.
    pub fn contains(&self, key: &[u8]) -> bool
        ensures { result ≡ is_within self.now key.now }
    {
        is_from_low(&self.low, key) && is_below_high(&self.high, key)
    }
}
