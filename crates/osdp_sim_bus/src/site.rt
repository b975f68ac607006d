//! A reader on the line.

ghost use Rattle.std.specs.Prelude.{◌≡◌, ◌+◌, ◌<◌, ◌≤◌, ◌++◌, [], ◌∷◌, IfErr, IfOk};
ghost use Rattle.std.specs.VecDeque.{deque_capacity, deque_len};
ghost use Rattle.osdp_reader.specs.declared.config.ReaderConfig.{ReaderConfig};
ghost use Rattle.osdp_sim.specs.Line.{bytes_of};
ghost use Rattle.osdp_sim.specs.Steps.{SaysFit};
ghost use Rattle.osdp_sim.specs.declared.fault.Cause.TheVariants.{NoMemory};
ghost use Rattle.osdp_sim_bus.specs.Room.{HasPlace, site_of};
ghost use Rattle.osdp_sim_bus.specs.State.{new_site};
ghost use Rattle.osdp_sim_bus.specs.Steps.{site_hears, site_queues, site_says};

use osdp_frame::{Burst, FrameView};
use osdp_msg::{Event, Room};
use osdp_reader::{Handler, Reader, ReaderConfig};
use osdp_sim::hearing::hear;
use osdp_sim::{Account, Cause};
use std::alloc::Global;
use std::collections::VecDeque;

/// A reader's side of a site: the reader, and what has come of its schedule so far.
#[derive(Drop)]
pub struct ReaderSite<H: Handler> {
    pub reader: Reader<H>,
    pub account: Account,
}

impl<H: Handler> ReaderSite<H> {
    /// A new reader, whose first session begins.
    pub fn new(
        alloc: Global,
        config: ReaderConfig,
        events: usize,
        handler: H,
    ) -> Result<ReaderSite<H>, Cause>
        ensures made { IfOk result (λ site. site_of site ≡ new_site (config, events, handler)) }
        ensures cause { IfErr result (λ cause. cause ≡ NoMemory) }
    {
        let Ok(reader) = Reader::new(alloc, config, handler, Room::of(events)) else {
            return Err(Cause::NoMemory);
        };
        let mut account = Account::new(alloc);
        if account.grow().is_err() {
            return Err(Cause::NoMemory);
        }
        account.begin();
        Ok(ReaderSite { reader, account })
    }

    /// The device submits an event; a refused one is dropped.
    pub fn queue(&mut self, event: &Event<'_>)
        requires { HasPlace self.old }
        ensures { site_of self.new ≡ site_queues event.now (site_of self.old) }
    {
        if self.reader.submit_event(event) {
            self.account.queue(event);
        }
    }

    /// The reader hears a packet, and its answer goes out. It stands in `out` then, in place of what stood there.
    pub fn hear(&mut self, packet: &FrameView<'_>, out: &mut Burst, line: &mut VecDeque<Burst>)
        requires place { deque_len line.old < deque_capacity line.old }
        requires places { HasPlace self.old }
        ensures site { site_of self.new ≡ site_hears H.answer_of H.after packet.now (site_of self.old) }
        ensures line { bytes_of line.new.items ≡ bytes_of line.old.items ++ site_says H.answer_of H.after packet.now (site_of self.old) }
        ensures one { deque_len line.new ≤ deque_len line.old + 1 }
        ensures room { deque_capacity line.new ≡ deque_capacity line.old }
        ensures fits { SaysFit H.answer_of H.after (packet.now ∷ []) (site_of self.old).reader }
    {
        let _ = hear(&mut self.reader, packet, out, &mut self.account, line);
    }
}
