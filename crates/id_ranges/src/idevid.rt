// Records of device identities.
ghost use Rattle.std.specs.Prelude.{◌≡◌};
ghost use Rattle.id_ranges.specs.Idevid.{new_idevid, no_end};

use crate::fault::RangeFault;
use crate::key_digest::KeyDigest;
use crate::mac::Mac;
use crate::not_before::NotBefore;
use std::marker::Model;
use text_core::{Name, Serial, Time};

/// What an initial device identifier (IDevID, IEEE 802.1AR-2018) says of a device: the name of its
/// issuer, its serial number as the subject's serialNumber (section 8), the digest of its key, the
/// first of its addresses where it has any, the end of its validity, which is never, and the beginning
/// where it has one.
#[derive(Clone, Copy)]
pub struct IdevidRecord {
    issuer: Name,
    serial: Serial,
    key: KeyDigest,
    mac: Option<Mac>,
    not_after: Time,
    not_before: Option<NotBefore>,
}

impl Model for IdevidRecord {
    ghost use Rattle.id_ranges.specs.Idevid.{Idevid, no_end};
    ghost use Rattle.std.specs.Prelude.{◌≡◌};

    ghost Value = { Idevid };

    ghost view = { λ i. record {
      issuer = i.issuer;
      serial = i.serial;
      key = i.key;
      mac = i.mac;
      not_after = i.not_after;
      not_before = i.not_before;
    } };

    ghost invariant = { λ i. i.not_after ≡ no_end };

    ghost inverse = { λ i. record {
      issuer = i.issuer;
      serial = i.serial;
      key = i.key;
      mac = i.mac;
      not_after = i.not_after;
      not_before = i.not_before;
    } };
}

impl IdevidRecord {
    /// The record of a device, of which these are the issuer, the serial number, the digest of the key,
    /// the first address and the beginning of the validity. `BadText` where the serial number isn't 1 to
    /// 64 capital letters, digits and hyphens. It takes no memory.
    pub fn new(
        issuer: Name,
        serial: &str,
        key: KeyDigest,
        mac: Option<Mac>,
        not_before: Option<NotBefore>,
    ) -> Result<IdevidRecord, RangeFault>
        ensures { result ≡ new_idevid issuer serial.now key mac not_before }
    {
        let Some(serial) = Serial::parse(serial) else {
            return Err(RangeFault::BadText);
        };
        Ok(IdevidRecord::of(issuer, serial, key, mac, not_before))
    }

    /// The record of a device whose serial number is one.
    pub fn of(
        issuer: Name,
        serial: Serial,
        key: KeyDigest,
        mac: Option<Mac>,
        not_before: Option<NotBefore>,
    ) -> IdevidRecord
        ensures { result ≡ record {
          issuer = issuer;
          serial = serial;
          key = key;
          mac = mac;
          not_after = no_end;
          not_before = not_before;
        } }
    {
        IdevidRecord {
            issuer,
            serial,
            key,
            mac,
            not_after: Time::no_end(),
            not_before,
        }
    }

    /// The name of the issuer.
    pub fn issuer(&self) -> Name
        ensures { result ≡ self.now.issuer }
    {
        self.issuer
    }

    /// The serial number.
    pub fn serial(&self) -> Serial
        ensures { result ≡ self.now.serial }
    {
        self.serial
    }

    /// The digest of the key.
    pub fn key(&self) -> KeyDigest
        ensures { result ≡ self.now.key }
    {
        self.key
    }

    /// The first address, if the device has any.
    pub fn mac(&self) -> Option<Mac>
        ensures { result ≡ self.now.mac }
    {
        self.mac
    }

    /// The end of the validity: that there is none.
    pub fn not_after(&self) -> Time
        ensures same { result ≡ self.now.not_after }
        ensures never { result ≡ no_end }
    {
        self.not_after
    }

    /// The beginning of the validity, if the record has one.
    pub fn not_before(&self) -> Option<NotBefore>
        ensures { result ≡ self.now.not_before }
    {
        self.not_before
    }
}
