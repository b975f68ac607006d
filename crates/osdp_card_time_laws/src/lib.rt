//! How many milliseconds a card takes from the queue of its reader to its report, where nothing is lost and all answers are read in time. The functions do
//! nothing: their contracts are laws.
#![tactic(auto)]

ghost use Rattle.osdp_bus_laws.specs.Calls.{Always};
ghost use Rattle.osdp_card_time_laws.specs.Among.{CardsAmongOrders};
ghost use Rattle.osdp_card_time_laws.specs.Between.{CardsComeAsAnswered, CardsComeInTime, PollsComeBetween};
ghost use Rattle.osdp_card_time_laws.specs.Cards.{CardsAreReported, CardsByFigures, CardsInTime};
ghost use Rattle.osdp_card_time_laws.specs.Instances.{CardIsReached};
ghost use Rattle.osdp_card_time_laws.specs.SlowCard.{CardBetweenIsReached};
ghost use Rattle.osdp_card_time_laws.specs.Readers.{AnswersTellTheFront, ReadersTakeAsQueues};

use osdp_reader::Handler;

/// An event that waits at a reader that serves while its session is under way is reported in time, or its session has ended by then. A reader serves where it takes each
/// packet, is never busy, and its answers are read. For each event that is still to be offered before it, for each order of its entry that waits or is accepted until then,
/// and for itself the interval between POLLs and a turn of each entry pass at the most, and then its own answer. A turn is an exchange and a late tick. Where each answer is
/// read so soon after its packet, an exchange takes so long. So the figure that a plan tells of a card is no less than it takes.
pub fn cards_are_reported()
    ensures turns { Always CardsAreReported }
    ensures answered { Always CardsInTime }
    ensures figures { Always CardsByFigures }
{}

/// However many orders wait, an event of a reader that serves is reported in time where a POLL goes out between any two orders of its entry: for each event to offer before
/// it come a POLL and an order at the most, and for itself too.
pub fn cards_come_among_orders()
    ensures { Always CardsAmongOrders }
{}

/// Where the settings say so, a POLL of an entry goes out between any two of its orders, or the opening of its next session does. So such a line meets what law
/// `cards_come_among_orders` asks. While an order waits for its answer, the next one waits for a POLL too.
pub fn polls_come_between_orders()
    ensures { Always PollsComeBetween }
{}

/// Where the settings let a POLL stand between any two orders, an event that waits in a session is reported in time, or that session has ended, however many orders are
/// given and however fast. The bound is that of a card before which one order of its entry more is asked than events are to be offered. Where an order waits for its answer
/// already, as many are asked.
pub fn cards_come_in_time()
    ensures turns { Always CardsComeInTime }
    ensures answered { Always CardsComeAsAnswered }
{}

/// The queue of these laws is that of a reader: each packet that its table takes changes it so, and the answer to a POLL is the front, which the controller's
/// table tells.
pub fn readers_take_as_queues<H: Handler>()
    ensures queue { ReadersTakeAsQueues H.answer_of H.after }
    ensures told { AnswersTellTheFront }
{}

/// The bound of a card is reached: a card that is queued as a POLL has just been answered, on a line whose program is a millisecond late each time and reads
/// each answer a millisecond after its packet, takes exactly so long.
pub fn bounds_are_reached()
    ensures { CardIsReached }
{}

/// The bound of a card among orders is reached where a POLL stands between any two of them: of two orders that come meanwhile, the first goes out before it. The second one
/// waits until the card's own POLL has gone out.
pub fn the_bound_among_orders_is_reached()
    ensures { CardBetweenIsReached }
{}
