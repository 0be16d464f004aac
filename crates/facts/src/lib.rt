// What rules may look at: the fields of a certificate, its key, its extensions by slot, and of its issuer what counts. It is
// read once. Every group of rules takes the same: the profile, and these with the octets that they were read of.
#![tactic(auto)]

ghost use Rattle.std.specs.Prelude.{◌≡◌};
ghost use Rattle.facts.specs.Kinds.{is_rsa, is_elliptic_curve};
ghost use Rattle.facts.specs.Case.{facts_of};

use certificate::{Certificate, Issuer, Key, KeyKind, SLOTS, Slot};

#[derive(Clone, Copy)]
pub struct Facts {
    pub fields: Certificate,
    pub key: Key,
    // the first extension in each slot of the table
    pub slots: [Slot; SLOTS],
    // some extension has an identifier seen before
    pub repeated: bool,
    pub issuer: Issuer,
}

// What rules judge by: a certificate's octets, what was read of them and of its issuer's, and the issuer's octets.
#[derive(Clone, Copy)]
pub struct Evidence<'a> {
    pub octets: &'a [u8],
    pub facts: Facts,
    pub issuer: &'a [u8],
}

pub fn facts_of(s: &[u8], issuer: &[u8]) -> Facts
    ensures { result ≡ facts_of s.now issuer.now }
{
    let fields = certificate::read(s);
    let key = certificate::key_of(s, fields.key);
    let read = certificate::read_slots(s, fields.extensions);
    let slots = read.each;
    let signer = certificate::read_issuer(issuer);
    Facts {
        fields: fields,
        key: key,
        slots: slots,
        repeated: read.repeated,
        issuer: signer,
    }
}

// The parts of the facts. Rules take parts, and only these functions take the facts apart: where a function does that, each
// step of its check carries every field.
pub fn fields_in(f: Facts) -> Certificate
    ensures { result ≡ f.fields }
{
    f.fields
}

pub fn key_in(f: Facts) -> Key
    ensures { result ≡ f.key }
{
    f.key
}

pub fn slots_in(f: Facts) -> [Slot; SLOTS]
    ensures { result ≡ f.slots }
{
    f.slots
}

pub fn has_repeats(f: Facts) -> bool
    ensures { result ≡ f.repeated }
{
    f.repeated
}

pub fn issuer_in(f: Facts) -> Issuer
    ensures { result ≡ f.issuer }
{
    f.issuer
}

pub fn is_rsa(kind: KeyKind) -> bool
    ensures { result ≡ is_rsa kind }
{
    matches!(kind, KeyKind::Rsa)
}

pub fn is_elliptic_curve(kind: KeyKind) -> bool
    ensures { result ≡ is_elliptic_curve kind }
{
    matches!(kind, KeyKind::EllipticCurve)
}
