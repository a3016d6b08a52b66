//! The NAME of a node (ISO 11783-5).

ghost use Rattle.std.specs.Prelude.{◌≡◌, ◌==◌};
ghost use Rattle.vt_names.specs.Names.{name_fields};

use std::marker::Model;

/// The NAME of a terminal that is given no other: identity 1, and the function of a virtual terminal (29) in industry group 2.
pub const TERMINAL_NAME: u64 = 0x2000_1D00_0000_0001;

/// The 64-bit NAME of a node. Of two NAMEs that claim an address, the lower one keeps it. docs/PROFILE.md, "The NAME".
#[derive(Clone, Copy, Default, PartialEq, Eq, PartialOrd, Ord, Hash)]
pub struct Name {
    raw: u64,
}

impl Model for Name {
    ghost use Rattle.std.specs.Prelude.{ℕ};

    ghost Value = { ℕ };

    ghost view = { λ name. name.raw };

    ghost inverse = { λ n. record { raw = n } };
}

impl Name {
    /// Returns the NAME with a number.
    pub fn from_raw(raw: u64) -> Name
        ensures { result ≡ raw }
    {
        Name { raw }
    }

    /// The NAME as a number.
    pub fn raw(self) -> u64
        ensures { result ≡ self }
    {
        self.raw
    }

    /// The identity number, 21 bits.
    pub fn identity(self) -> u32
        ensures { result ≡ (name_fields self).identity }
    {
        (self.raw & 0x1F_FFFF) as u32
    }

    /// The manufacturer code, 11 bits.
    pub fn manufacturer(self) -> u16
        ensures { result ≡ (name_fields self).manufacturer }
    {
        (self.raw >> 21 & 0x7FF) as u16
    }

    /// The ECU instance, 3 bits.
    pub fn ecu_instance(self) -> u8
        ensures { result ≡ (name_fields self).ecu_instance }
    {
        (self.raw >> 32 & 0x7) as u8
    }

    /// The function instance, 5 bits.
    pub fn function_instance(self) -> u8
        ensures { result ≡ (name_fields self).function_instance }
    {
        (self.raw >> 35 & 0x1F) as u8
    }

    /// The function, 8 bits.
    pub fn function(self) -> u8
        ensures { result ≡ (name_fields self).function }
    {
        (self.raw >> 40 & 0xFF) as u8
    }

    /// The reserved bit.
    pub fn reserved(self) -> bool
        ensures { result ≡ ((name_fields self).reserved == 1) }
    {
        self.raw >> 48 & 1 == 1
    }

    /// The device class, 7 bits.
    pub fn device_class(self) -> u8
        ensures { result ≡ (name_fields self).device_class }
    {
        (self.raw >> 49 & 0x7F) as u8
    }

    /// The device class instance, 4 bits.
    pub fn device_class_instance(self) -> u8
        ensures { result ≡ (name_fields self).device_class_instance }
    {
        (self.raw >> 56 & 0xF) as u8
    }

    /// The industry group, 3 bits.
    pub fn industry_group(self) -> u8
        ensures { result ≡ (name_fields self).industry_group }
    {
        (self.raw >> 60 & 0x7) as u8
    }

    /// Whether the node may take another address by itself.
    pub fn is_self_configurable(self) -> bool
        ensures { result ≡ ((name_fields self).self_configurable == 1) }
    {
        self.raw >> 63 == 1
    }
}
