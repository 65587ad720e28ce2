//! What a line of a plan says.
ghost use Rattle.std.specs.Prelude.{◌≡◌, ◌∷◌, [], IfOk};
ghost use Rattle.dsdl_types.specs.Definitions.{IsNamespace};
ghost use Rattle.node_plan.specs.Line.{Says, said_of, said_of_one, said_of_value, said_of_two, said_of_all, said_of_type, said_of_four, said_of_five, said_of_many, said_of_words, IsSaid};
ghost use Rattle.node_plan.specs.Words.{words_of};

use crate::bus::{bus, mtu_in};
use crate::info::{InfoWords, info};
use crate::numbers::{clients, mtu, node, queue, rate, status, timeout, version};
use crate::plan::{BusPlan, NodeStatus, Sub};
use crate::registers::{limits, register, register_words};
use crate::serve::serve;
use crate::sub::{MAX_EXTENT, raw_sub, sub_of_type};
use crate::types::shape_named;
use crate::words::{Number, cut, number_in, whole_in};
use cy_bits::{NoMemory, Text};
use dsdl_types::Namespace;
use std::alloc::Global;
use std_types::node::NodeInfo;
use std_types::registers::{Limits, Register};

/// The version of a plan's lines.
#[derive(Clone, Copy)]
pub enum PlanVersion {
    /// `mtu` and `rate` count for all buses.
    One,
    /// Each `bus` line has an MTU and a rate of its own.
    Two,
}

/// What a line of a plan says.
#[derive(Drop)]
pub enum Said {
    /// It is no line of a plan.
    NoForm,
    /// It is a line of a plan with a part outside its range.
    Outside,
    /// Nothing: it is empty or a comment.
    Nothing,
    /// `plan 1` or `plan 2`.
    Version(PlanVersion),
    /// `node N`.
    Node(u8),
    /// `bus NAME MTU RATE`, or `bus NAME` with the MTU 8 and the rate 4,096.
    Bus(BusPlan),
    /// `mtu N`.
    Mtu(u8),
    /// `rate N`.
    Rate(u32),
    /// `timeout N`.
    Timeout(u64),
    /// `silent`.
    Silent,
    /// `sub PORT SOURCES raw N`, or `sub PORT SOURCES TYPE` of a message whose extent is at most
    /// 65,536 bytes.
    Sub(Sub),
    /// `sub PORT SOURCES TYPE` of no message of the namespace.
    UnknownType { port: u16 },
    /// `sub PORT SOURCES TYPE` of a message whose extent is above 65,536 bytes.
    LongType { port: u16 },
    /// `clients N`.
    Clients(u16),
    /// `status HEALTH MODE CODE`.
    Status(NodeStatus),
    /// `info HW SW VCS UID NAME`.
    Info(NodeInfo),
    /// `queue N`.
    Queue(u32),
    /// `register NAME rw VALUE` or `register NAME ro VALUE`, without limits.
    Register(Register),
    /// `limits NAME LOW HIGH`.
    Limits { name: Text, limits: Limits },
    /// `serve PATH`.
    Serve(Text),
}

fn one_word(word: &[u8]) -> Said
    ensures value { result ≡ said_of_one word.now }
    ensures sound { IsSaid result }
{
    if word == b"silent".as_slice() {
        Said::Silent
    } else {
        Said::NoForm
    }
}

/// Two words of version 1 that say something of all buses.
fn all_buses(word: &[u8], value: &[u8]) -> Said
    ensures value { result ≡ said_of_all word.now value.now }
    ensures sound { IsSaid result }
{
    if word == b"bus".as_slice() {
        bus(value, Number::Within(8), Number::Within(4096))
    } else if word == b"mtu".as_slice() {
        mtu(mtu_in(value))
    } else if word == b"rate".as_slice() {
        rate(number_in(1, 4096, value))
    } else {
        Said::NoForm
    }
}

/// Two words that say a number or a name.
fn value_words(is_two: bool, word: &[u8], value: &[u8]) -> Said
    ensures value { result ≡ said_of_value is_two word.now value.now }
    ensures sound { IsSaid result }
{
    if word == b"plan".as_slice() {
        version(value)
    } else if word == b"node".as_slice() {
        node(number_in(0, 127, value))
    } else if word == b"timeout".as_slice() {
        timeout(number_in(1, 60_000_000, value))
    } else if word == b"clients".as_slice() {
        clients(number_in(1, 128, value))
    } else if word == b"queue".as_slice() {
        queue(number_in(1, 4096, value))
    } else if is_two {
        Said::NoForm
    } else {
        all_buses(word, value)
    }
}

fn two_words(alloc: Global, is_two: bool, word: &[u8], value: &[u8]) -> Result<Said, NoMemory>
    requires { words_of value.now ≡ value.now ∷ [] }
    ensures value { IfOk result (λ said. said ≡ said_of_two is_two word.now value.now) }
    ensures sound { IfOk result IsSaid }
{
    if word == b"serve".as_slice() {
        serve(alloc, value)
    } else {
        Ok(value_words(is_two, word, value))
    }
}

fn sub(
    alloc: Global,
    names: &Namespace,
    port: &[u8],
    sources: &[u8],
    name: &[u8],
) -> Result<Said, NoMemory>
    requires { IsNamespace names.now }
    ensures value { IfOk result (λ said.
        said ≡ said_of_type names.now port.now sources.now name.now) }
    ensures sound { IfOk result IsSaid }
{
    if name.is_empty() {
        return Ok(Said::NoForm);
    }
    let shape = shape_named(alloc, names, name)?;
    Ok(sub_of_type(number_in(0, 8191, port), number_in(1, 128, sources), shape))
}

fn four_words(
    alloc: Global,
    names: &Namespace,
    is_two: bool,
    word: &[u8],
    first: &[u8],
    second: &[u8],
    third: &[u8],
) -> Result<Said, NoMemory>
    requires { IsNamespace names.now }
    ensures value { IfOk result (λ said. said
        ≡ said_of_four names.now is_two word.now first.now second.now third.now) }
    ensures sound { IfOk result IsSaid }
{
    if word == b"sub".as_slice() {
        sub(alloc, names, first, second, third)
    } else if word == b"status".as_slice() {
        Ok(status(
            number_in(0, 3, first),
            number_in(0, 3, second),
            number_in(0, 255, third),
        ))
    } else if is_two && word == b"bus".as_slice() {
        Ok(bus(first, mtu_in(second), number_in(1, 4096, third)))
    } else if is_two && word == b"limits".as_slice() {
        limits(alloc, first, whole_in(second), whole_in(third))
    } else {
        Ok(Said::NoForm)
    }
}

fn five_words(word: &[u8], port: &[u8], sources: &[u8], raw: &[u8], extent: &[u8]) -> Said
    ensures value { result ≡ said_of_five word.now port.now sources.now raw.now extent.now }
    ensures sound { IsSaid result }
{
    if word != b"sub".as_slice() {
        return Said::NoForm;
    }
    if raw != b"raw".as_slice() {
        return Said::NoForm;
    }
    raw_sub(
        number_in(0, 8191, port),
        number_in(1, 128, sources),
        number_in(0, MAX_EXTENT, extent),
    )
}

fn many_words(alloc: Global, word: &[u8], words: &InfoWords) -> Result<Said, NoMemory>
    ensures value { IfOk result (λ said. said
        ≡ said_of_many word.now words.now.hardware.now words.now.software.now
        words.now.revision.now words.now.unique_id.now words.now.name.now) }
    ensures sound { IfOk result IsSaid }
{
    if word == b"info".as_slice() {
        info(alloc, words)
    } else {
        Ok(Said::NoForm)
    }
}

fn words(alloc: Global, names: &Namespace, is_two: bool, line: &[u8]) -> Result<Said, NoMemory>
    requires { IsNamespace names.now }
    ensures value { IfOk result (λ said.
        said ≡ said_of_words names.now is_two (words_of line.now)) }
    ensures sound { IfOk result IsSaid }
{
    let Some((word, behind)) = cut(b' ', line) else {
        return Ok(one_word(line));
    };
    let Some((second, behind)) = cut(b' ', behind) else {
        return two_words(alloc, is_two, word, behind);
    };
    let Some((third, behind)) = cut(b' ', behind) else {
        return Ok(Said::NoForm);
    };
    let Some((fourth, behind)) = cut(b' ', behind) else {
        return four_words(alloc, names, is_two, word, second, third, behind);
    };
    match cut(b' ', behind) {
        Some((fifth, behind)) => {
            let words = InfoWords {
                hardware: second,
                software: third,
                revision: fourth,
                unique_id: fifth,
                name: behind,
            };
            many_words(alloc, word, &words)
        }
        None => Ok(five_words(word, second, third, fourth, behind)),
    }
}

/// What a line says that says no register.
fn plain_line(alloc: Global, names: &Namespace, is_two: bool, line: &[u8]) -> Result<Said, NoMemory>
    requires { IsNamespace names.now }
    ensures value { IfOk result (λ said. said ≡ said_of names.now is_two line.now) }
    ensures sound { IfOk result IsSaid }
{
    match line {
        [] => Ok(Said::Nothing),
        [b'#', ..] => Ok(Said::Nothing),
        _ => words(alloc, names, is_two, line),
    }
}

/// What a line says, where `is_two` tells whether it is one of version 2.
pub fn read_line(
    alloc: Global,
    names: &Namespace,
    is_two: bool,
    line: &[u8],
) -> Result<Said, NoMemory>
    requires { IsNamespace names.now }
    ensures value { IfOk result (Says names.now is_two line.now) }
    ensures sound { IfOk result IsSaid }
{
    match register_words(line) {
        Some(words) => register(alloc, &words),
        None => plain_line(alloc, names, is_two, line),
    }
}
