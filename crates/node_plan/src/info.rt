//! Lines of a plan that say what the node is.
ghost use Rattle.std.specs.Prelude.{◌≡◌, ◌<◌, ◌^◌, IfOk, IfSome};
ghost use Rattle.std.specs.List.{list_all};
ghost use Rattle.std_types.specs.Held.{IsUniqueId};
ghost use Rattle.std_types.specs.Node.{FitsVersion};
ghost use Rattle.node_plan.specs.Info.{IsVersionWord, blank_info, is_node_name, is_printable, revision_in, said_of_info, said_of_versions, unique_id_in, version_in, version_of};
ghost use Rattle.node_plan.specs.IsPlan.{IsInfo};
ghost use Rattle.node_plan.specs.Line.{IsSaid};
ghost use Rattle.node_plan.specs.Words.{IsWithin};

use crate::line::Said;
use crate::words::{Number, cut, number_in};
use cy_bits::{Bytes, List, NoMemory};
use hex::FromHex;
use std::alloc::Global;
use std_types::node::{NodeInfo, Version};

/// The version of the protocol that a node speaks.
pub const PROTOCOL: Version = Version { major: 1, minor: 0 };

/// The greatest number of bytes of a node's name.
const MAX_NAME: usize = 50;

/// What a word is where a version `a.b` stands.
#[derive(Clone, Copy)]
pub enum VersionWord {
    /// It isn't two numbers with a point between them.
    NoVersion,
    /// A number of it is above 255.
    Outside,
    /// A version.
    Within(Version),
}

fn version_of(major: Number, minor: Number) -> VersionWord
    requires major { IsWithin 0 255 major }
    requires minor { IsWithin 0 255 minor }
    ensures value { result ≡ version_of major minor }
    ensures sound { IsVersionWord result }
{
    match (major, minor) {
        (Number::NoNumber, _) | (_, Number::NoNumber) => VersionWord::NoVersion,
        (Number::Within(major), Number::Within(minor)) => VersionWord::Within(Version {
            major: major as u8,
            minor: minor as u8,
        }),
        _ => VersionWord::Outside,
    }
}

/// What a word is where a version `a.b` stands.
fn version_in(word: &[u8]) -> VersionWord
    ensures value { result ≡ version_in word.now }
    ensures sound { IsVersionWord result }
{
    let Some((major, behind)) = cut(b'.', word) else {
        return VersionWord::NoVersion;
    };
    match cut(b'.', behind) {
        Some(_) => VersionWord::NoVersion,
        None => version_of(number_in(0, 255, major), number_in(0, 255, behind)),
    }
}

fn revision_in(word: &[u8]) -> Option<u64>
    ensures value { result ≡ revision_in word.now }
    ensures fits { IfSome result (λ n. n < 2 ^ 64) }
{
    match <[u8; 8] as FromHex>::from_hex(word) {
        Ok(bytes) => Some(u64::from_be_bytes(bytes)),
        Err(_) => None,
    }
}

fn unique_id_in(word: &[u8]) -> Option<[u8; 16]>
    ensures value { result ≡ unique_id_in word.now }
    ensures fits { IfSome result IsUniqueId }
{
    match <[u8; 16] as FromHex>::from_hex(word) {
        Ok(bytes) => Some(bytes),
        Err(_) => None,
    }
}

fn is_printable(b: u8) -> bool
    ensures { result ≡ is_printable b }
{
    b >= b' ' && b <= b'~'
}

fn has_printable_bytes(name: &[u8]) -> bool
    ensures { result ≡ list_all is_printable name.now }
{
    name.iter().all(|b| is_printable(*b))
}

fn is_node_name(name: &[u8]) -> bool
    ensures { result ≡ is_node_name name.now }
{
    name.len() <= MAX_NAME && has_printable_bytes(name)
}

/// The words behind `info`; the name is all that stands behind the others.
#[derive(Clone, Copy)]
pub struct InfoWords<'a> {
    pub hardware: &'a [u8],
    pub software: &'a [u8],
    pub revision: &'a [u8],
    pub unique_id: &'a [u8],
    pub name: &'a [u8],
}

/// Versions with the other words.
fn info_of(
    alloc: Global,
    hardware: Version,
    software: Version,
    words: &InfoWords,
) -> Result<Said, NoMemory>
    requires hardware { FitsVersion hardware }
    requires software { FitsVersion software }
    ensures value { IfOk result (λ said. said ≡ said_of_versions hardware software
        words.now.revision.now words.now.unique_id.now words.now.name.now) }
    ensures sound { IfOk result IsSaid }
{
    let Some(revision) = revision_in(words.revision) else {
        return Ok(Said::Outside);
    };
    let Some(unique_id) = unique_id_in(words.unique_id) else {
        return Ok(Said::Outside);
    };
    if !is_node_name(words.name) {
        return Ok(Said::Outside);
    }
    let name = Bytes::from_slice(alloc, words.name)?;
    Ok(Said::Info(NodeInfo {
        protocol_version: PROTOCOL,
        hardware_version: hardware,
        software_version: software,
        software_vcs_revision_id: revision,
        unique_id,
        name,
        software_image_crc: List::empty(alloc),
        certificate_of_authenticity: Bytes::new(Vec::new(alloc)),
    }))
}

/// `info HW SW VCS UID NAME`.
pub fn info(alloc: Global, words: &InfoWords) -> Result<Said, NoMemory>
    ensures value { IfOk result (λ said. said
        ≡ said_of_info (version_in words.now.hardware.now) (version_in words.now.software.now)
        words.now.revision.now words.now.unique_id.now words.now.name.now) }
    ensures sound { IfOk result IsSaid }
{
    if words.revision.is_empty() || words.unique_id.is_empty() || words.name.is_empty() {
        return Ok(Said::NoForm);
    }
    match (version_in(words.hardware), version_in(words.software)) {
        (VersionWord::NoVersion, _) | (_, VersionWord::NoVersion) => Ok(Said::NoForm),
        (VersionWord::Within(hardware), VersionWord::Within(software)) => {
            info_of(alloc, hardware, software, words)
        }
        _ => Ok(Said::Outside),
    }
}

/// What a node is of which nothing is said.
pub fn blank_info(alloc: Global) -> NodeInfo
    ensures value { result ≡ blank_info }
    ensures sound { IsInfo result }
{
    NodeInfo {
        protocol_version: PROTOCOL,
        hardware_version: Version { major: 0, minor: 0 },
        software_version: Version { major: 0, minor: 0 },
        software_vcs_revision_id: 0,
        unique_id: [0; 16],
        name: Bytes::new(Vec::new(alloc)),
        software_image_crc: List::empty(alloc),
        certificate_of_authenticity: Bytes::new(Vec::new(alloc)),
    }
}
