//! Lines of a plan that say numbers.
ghost use Rattle.std.specs.Prelude.{◌≡◌};
ghost use Rattle.node_plan.specs.IsPlan.{IsMtu};
ghost use Rattle.node_plan.specs.Line.{said_of_version, said_of_node, said_of_timeout, said_of_clients, said_of_queue, said_of_mtu, said_of_rate, said_of_status, IsSaid};
ghost use Rattle.node_plan.specs.Words.{IsWithin, IsMtuWord};

use crate::line::{PlanVersion, Said};
use crate::plan::NodeStatus;
use crate::words::Number;

/// `plan 1` and `plan 2`.
pub fn version(word: &[u8]) -> Said
    ensures value { result ≡ said_of_version word.now }
    ensures sound { IsSaid result }
{
    if word == b"1".as_slice() {
        Said::Version(PlanVersion::One)
    } else if word == b"2".as_slice() {
        Said::Version(PlanVersion::Two)
    } else {
        Said::NoForm
    }
}

/// `node N`.
pub fn node(number: Number) -> Said
    requires { IsWithin 0 127 number }
    ensures value { result ≡ said_of_node number }
    ensures sound { IsSaid result }
{
    match number {
        Number::NoNumber => Said::NoForm,
        Number::Outside => Said::Outside,
        Number::Within(n) => Said::Node(n as u8),
    }
}

/// `timeout N`.
pub fn timeout(number: Number) -> Said
    requires { IsWithin 1 60000000 number }
    ensures value { result ≡ said_of_timeout number }
    ensures sound { IsSaid result }
{
    match number {
        Number::NoNumber => Said::NoForm,
        Number::Outside => Said::Outside,
        Number::Within(n) => Said::Timeout(n as u64),
    }
}

/// `clients N`.
pub fn clients(number: Number) -> Said
    requires { IsWithin 1 128 number }
    ensures value { result ≡ said_of_clients number }
    ensures sound { IsSaid result }
{
    match number {
        Number::NoNumber => Said::NoForm,
        Number::Outside => Said::Outside,
        Number::Within(n) => Said::Clients(n as u16),
    }
}

/// `queue N`.
pub fn queue(number: Number) -> Said
    requires { IsWithin 1 4096 number }
    ensures value { result ≡ said_of_queue number }
    ensures sound { IsSaid result }
{
    match number {
        Number::NoNumber => Said::NoForm,
        Number::Outside => Said::Outside,
        Number::Within(n) => Said::Queue(n),
    }
}

/// `mtu N`.
pub fn mtu(number: Number) -> Said
    requires { IsMtuWord number }
    ensures value { result ≡ said_of_mtu number }
    ensures sound { IsSaid result }
{
    match number {
        Number::NoNumber => Said::NoForm,
        Number::Outside => Said::Outside,
        Number::Within(n) => Said::Mtu(n as u8),
    }
}

/// `rate N`.
pub fn rate(number: Number) -> Said
    requires { IsWithin 1 4096 number }
    ensures value { result ≡ said_of_rate number }
    ensures sound { IsSaid result }
{
    match number {
        Number::NoNumber => Said::NoForm,
        Number::Outside => Said::Outside,
        Number::Within(n) => Said::Rate(n),
    }
}

/// `status HEALTH MODE CODE`.
pub fn status(health: Number, mode: Number, code: Number) -> Said
    requires health { IsWithin 0 3 health }
    requires mode { IsWithin 0 3 mode }
    requires code { IsWithin 0 255 code }
    ensures value { result ≡ said_of_status health mode code }
    ensures sound { IsSaid result }
{
    match (health, mode, code) {
        (Number::NoNumber, _, _) | (_, Number::NoNumber, _) | (_, _, Number::NoNumber) => {
            Said::NoForm
        }
        (Number::Within(health), Number::Within(mode), Number::Within(code)) => {
            Said::Status(NodeStatus {
                health: health as u8,
                mode: mode as u8,
                code: code as u8,
            })
        }
        _ => Said::Outside,
    }
}
