//! The two lines before the nodes.
ghost use Rattle.std.specs.Prelude.{◌≡◌, ◌≢◌, ◌++◌, ◌∷◌, ℕ, List, [], OnOk, IfSome, Some, IsTrue, length};
ghost use Rattle.hex.specs.Hex.{IsBytes, encode_lower};
ghost use Rattle.pv_file.specs.Texts.{IsDigest, NamesOther, header_text, version_text, identity_text};

use crate::version::Version;
use pv_num::Memory;

/// Appends the lines before the nodes.
pub(crate) fn push_header(
    version: Version,
    identity: &[u8; 32],
    out: &mut Vec<u8>,
) -> Result<(), Memory>
    ensures header { OnOk result
        (out.new.items ≡ out.old.items ++ header_text version identity.now) }
{
    out.extend_from_slice(version_name(version))?;
    out.extend_from_slice(b"\nidentity ")?;
    out.extend_from_slice(&hex_digits(identity))?;
    out.push(b'\n')?;
    Ok(())
}

fn version_name(version: Version) -> &'static [u8]
    ensures { result.now ≡ version_text version }
{
    match version {
        Version::One => b"paving 1",
        Version::Two => b"paving 2",
    }
}

/// The 64 digits of a SHA-256 digest, in lower case.
pub fn hex_digits(digest: &[u8; 32]) -> [u8; 64]
    ensures { result ≡ encode_lower digest.now }
{
    let mut digits = [0u8; 64];
    let _ = hex::encode_to_slice(digest.as_slice(), &mut digits);
    digits
}

/// The version that a first line names.
pub(crate) fn read_version(line: &[u8]) -> Option<Version>
    ensures sound { IfSome result (λ v. line.now ≡ version_text v) }
    ensures complete { (v : Version) → line.now ≡ version_text v → result ≡ Some v }
{
    match line {
        b"paving 1" => Some(Version::One),
        b"paving 2" => Some(Version::Two),
        _ => None,
    }
}

/// Whose identity a second line names.
pub(crate) enum IdentityLine {
    /// The one that was asked for.
    Same,
    /// Another one.
    Other,
    /// None: the line has another form.
    Bad,
}

/// What a second line says of an identity.
pub(crate) fn read_identity(line: &[u8], identity: &[u8; 32]) -> IdentityLine
    ensures same { result ≡ IdentityLine.Same → line.now ≡ identity_text identity.now }
    ensures other { result ≡ IdentityLine.Other → NamesOther line.now identity.now }
    ensures complete { (d : List ℕ) → IsDigest d → line.now ≡ identity_text d
        → result ≢ IdentityLine.Bad }
    ensures is_same { line.now ≡ identity_text identity.now → result ≡ IdentityLine.Same }
{
    let Some(digits) = line.strip_prefix(b"identity ") else {
        return IdentityLine::Bad;
    };
    if digits == hex_digits(identity).as_slice() {
        return IdentityLine::Same;
    }
    match digest_of(digits) {
        Some(_) => IdentityLine::Other,
        None => IdentityLine::Bad,
    }
}

// The digest that 64 digits spell.
fn digest_of(digits: &[u8]) -> Option<[u8; 32]>
    ensures sound { IfSome result (λ d. digits.now ≡ encode_lower d) }
    ensures is_digest { IfSome result (λ d. IsDigest d) }
    ensures complete { (d : List ℕ) → IsDigest d → digits.now ≡ encode_lower d → result ≡ Some d }
{
    let mut digest = [0u8; 32];
    if hex::decode_to_slice(digits, &mut digest).is_err() {
        return None;
    }
    learn_digest(&digest);
    if digits == hex_digits(&digest).as_slice() {
        Some(digest)
    } else {
        None
    }
}

/// The digest's length and bytes, as a clause.
pub(crate) fn learn_digest(digest: &[u8; 32])
    ensures { IsDigest digest.now }
{
    learn_bytes(digest.as_slice());
}

fn learn_bytes(bytes: &[u8])
    ensures { IsBytes bytes.now }
{
    let _count = bytes.len();
}
