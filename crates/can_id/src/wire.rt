ghost use Rattle.std.specs.Prelude.{◌≡◌, ◌<◌, ◌^◌, MatchOption, Some};
ghost use Rattle.can_id.specs.Identifiers.{bits, ident_of, IsIdent, IsIdentifierOf};
ghost use Rattle.can_id.specs.declared.ident.Ident.{Ident};

use crate::ident::Ident;

/// The identifier of a frame that is sent (Cyphal Specification, section 4.2). `parse` undoes it.
pub fn make(ident: Ident) -> u32
    requires { IsIdent ident }
    ensures value { result ≡ bits ident }
    ensures undone { ident_of result ≡ Some ident }
{
    match ident {
        Ident::Message {
            priority,
            subject,
            source,
        } => { priority as u32 * 0x400_0000 + 0x60_0000 + subject as u32 * 0x100 + source as u32 }
        Ident::Anonymous {
            priority,
            subject,
            pseudo,
        } => { priority as u32 * 0x400_0000 + 0x160_0000 + subject as u32 * 0x100 + pseudo as u32 }
        Ident::Service {
            priority,
            request,
            service,
            destination,
            source,
        } => {
            let kind = if request { 0x300_0000 } else { 0x200_0000 };
            priority as u32 * 0x400_0000
                + kind
                + service as u32 * 0x4000
                + destination as u32 * 0x80
                + source as u32
        }
    }
}

/// What an identifier of 29 bits says (Cyphal Specification, section 4.2), or `None` where a frame
/// with it is discarded: bit 23 is set, bit 7 of a message is set, or the source of a service is
/// its destination.
#[inline(always)]
pub fn parse(bits: u32) -> Option<Ident>
    requires { bits < 2 ^ 29 }
    ensures value { result ≡ ident_of bits }
    ensures meaning { MatchOption result ((ident : Ident) → ¬ IsIdentifierOf bits ident)
        (IsIdentifierOf bits) }
{
    let low = (bits % 0x80) as u8;
    let middle = bits / 0x80;
    let top = middle / 0x1_0000;
    let priority = (top / 8) as u8;
    let is_service = top / 4 % 2 == 1;
    let is_second = top / 2 % 2 == 1;
    if top % 2 == 1 {
        return None;
    }
    let middle = middle % 0x1_0000;
    if is_service {
        let destination = (middle % 0x80) as u8;
        if destination == low {
            return None;
        }
        return Some(Ident::Service {
            priority,
            request: is_second,
            service: (middle / 0x80) as u16,
            destination,
            source: low,
        });
    }
    if middle % 2 == 1 {
        return None;
    }
    let subject = (middle / 2 % 0x2000) as u16;
    if is_second {
        return Some(Ident::Anonymous {
            priority,
            subject,
            pseudo: low,
        });
    }
    Some(Ident::Message {
        priority,
        subject,
        source: low,
    })
}
