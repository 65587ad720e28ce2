//! Laws of reception (Cyphal Specification, section 4.1.4), each the contract of a call that does
//! nothing.

ghost use Rattle.rx_table.specs.Table.{TableHeard};
ghost use Rattle.std.specs.Prelude.{ℕ, List};
ghost use Rattle.rx_table.specs.Meaning.{DeliveriesAre, BadCrcsAre};
ghost use Rattle.rx_table.specs.Laws.{
  Simulates,
  Advances,
  DeliveredStep,
  OutcomeTells,
  HeardInTime,
  PortSimulates,
  TableSimulates,
  FeedsOne,
  FeedsNone,
  Quiet,
  AdmittedLasts,
  HeldWithin,
};

/// The deliveries of a key are exactly these: a begun start frame whose chain closes, with no begun
/// record after it and up to its last frame, alone or with the CRC 0.
pub fn deliveries()
    ensures { (crc : List ℕ → ℕ) (timeout : ℕ) → DeliveriesAre crc timeout }
{}

/// The bad CRCs of a key are exactly these: such a frame whose chain closes, with another CRC than 0.
pub fn bad_crcs()
    ensures { (crc : List ℕ → ℕ) (timeout : ℕ) → BadCrcsAre crc timeout }
{}

/// What is delivered grows by what ends at each record.
pub fn delivered_steps()
    ensures { DeliveredStep }
{}

/// A session that stands for a list of records stands for the longer one after `accept`, and its
/// outcome says what ends there.
pub fn sessions()
    ensures { Simulates }
{}

/// And so it does after `step`, which leaves a whole transfer in its frame.
pub fn stepped_sessions()
    ensures { Advances }
{}

/// A session's outcome tells the delivery that ends at its record.
pub fn outcome_tells()
    ensures { OutcomeTells }
{}

/// A session has heard nothing later than the frames of its log.
pub fn heard_in_time()
    ensures { HeardInTime }
{}

/// A port's sessions stand for the longer log after each frame, and answer what it says.
pub fn port_sessions()
    ensures { PortSimulates }
{}

/// So do the sessions of all ports of a table.
pub fn table_sessions()
    ensures { TableSimulates }
{}

/// A frame feeds the one port that it is on.
pub fn feeds_one()
    ensures { FeedsOne }
{}

/// A frame on no port changes nothing.
pub fn feeds_none()
    ensures { FeedsNone }
{}

/// A source with no start frame delivers nothing.
pub fn quiet()
    ensures { Quiet }
{}

/// An admitted source stays admitted, and a refused one stays out.
pub fn admitted_lasts()
    ensures { AdmittedLasts }
{}

/// What a table holds is what its log says, and at most the bound.
pub fn held_within()
    ensures { HeldWithin }
{}

/// A table has heard nothing later than the frames of its log.
pub fn table_heard()
    ensures { TableHeard }
{}
