//! A survey that hears a log.
ghost use Rattle.std.specs.Prelude.{◌≡◌, ◌++◌, ◌∷◌, [], List, OnOk, refl, length, is_some};
ghost use Rattle.line_text.specs.Buffer.{text_of};
ghost use Rattle.tail_frame.specs.declared.logged.Record.{Record};
ghost use Rattle.bus_survey.specs.Surveyed.{survey_voice};
ghost use Rattle.bus_survey.specs.Surveys.{Surveys};

use crate::buses::Buses;
use crate::flow_table::FlowTable;
use crate::lines::{put_buses, put_end, put_flows};
use crate::sources::Sources;
use cy_bits::{BusName, NoMemory, ShortList};
use line_text::TextBuffer;
use log_loop::Listener;
use std::alloc::Global;
use tail_frame::{Record, frame_of};

/// A survey of the buses of a log.
#[derive(Drop)]
pub struct Surveying {
    /// The names of the buses.
    pub names: ShortList<BusName, 3>,
    /// What is counted of each bus.
    pub buses: Buses,
    /// What is counted of each flow.
    pub flows: FlowTable,
    /// The nodes that sent frames.
    pub sources: Sources,
    /// How many records it heard.
    pub records: u64,
    /// How many of them are no frame.
    pub discarded: u64,
    /// The moment of the last record, in microseconds, or 0.
    pub latest: u64,
}

impl Surveying {
    /// A survey of the buses with these names that heard nothing yet.
    pub(crate) fn new(alloc: Global, names: ShortList<BusName, 3>) -> Surveying
        ensures names { result.names ≡ names }
        ensures surveys { Surveys result.names result [] }
        ensures latest { result.latest ≡ 0 }
        ensures records { result.records ≡ 0 }
    {
        Surveying {
            names,
            buses: Buses::new(),
            flows: FlowTable::new(alloc),
            sources: Sources::new(),
            records: 0,
            discarded: 0,
            latest: 0,
        }
    }
}

impl Listener for Surveying {
    ghost event = { Record };

    ghost voice = { λ first. survey_voice first.names };

    ghost heard = { λ first now past. Surveys first.names now past };

    ghost ended = { λ first now past. Surveys first.names now past };

    ghost broke = { λ first now past. Unit {0} };

    ghost cut_short = { λ first now past. Unit {0} };

    ghost latest = { λ now. now.latest };

    ghost count = { λ now. now.records };

    fn hear(&mut self, rec: &Record, _gathered: &mut TextBuffer) -> Result<(), NoMemory> {
        let frame = frame_of(rec);
        self.buses.add(rec, frame.is_some());
        self.records += 1;
        self.latest = rec.moment;
        let Some(frame) = frame else {
            self.discarded = self.discarded.saturating_add(1);
            return Ok(());
        };
        self.flows.hear(&frame)?;
        self.sources.add(&frame);
        Ok(())
    }

    fn finish(&mut self, gathered: &mut TextBuffer) -> Result<(), NoMemory> {
        put_buses(gathered, &self.names, &self.buses)?;
        self.flows.sort()?;
        put_flows(gathered, &self.names, &self.flows)?;
        put_end(gathered, self.records, self.discarded, self.sources.count())
    }

    ghost heard_broke = { λ first now past h. tt };

    ghost comes = { λ first rec past. record { event = rec; of = refl; may = tt } };
}
