//! What is set for the cases that follow.

use std::alloc::{AllocError, Global};

/// A key, and what it was set to.
#[derive(Drop)]
struct Setting {
    key: String,
    value: Vec<u8>,
}

/// What is set, by keys.
#[derive(Drop)]
pub struct Settings {
    list: Vec<Setting>,
}

impl Settings {
    /// Nothing is set.
    pub fn new(alloc: Global) -> Settings {
        Settings {
            list: Vec::new(alloc),
        }
    }

    /// What this key was set to last; nothing, where it was not.
    pub fn bytes(&self, key: &str) -> &[u8] {
        for setting in self.list.iter() {
            if setting.key.as_str() == key {
                return setting.value.as_slice();
            }
        }
        b""
    }

    /// The same as a text; nothing, where it is none.
    pub fn text(&self, key: &str) -> &str {
        str::from_utf8(self.bytes(key)).unwrap_or("")
    }

    /// The same as a number; 0, where it is none.
    pub fn number(&self, key: &str) -> i64 {
        self.text(key).parse().unwrap_or(0)
    }

    /// Sets a key.
    pub fn set(&mut self, alloc: Global, key: &str, value: Vec<u8>) -> Result<(), AllocError> {
        self.list.retain(|setting| setting.key.as_str() != key);
        let key = String::from_str(alloc, key)?;
        self.list.push(Setting { key, value })?;
        Ok(())
    }
}
