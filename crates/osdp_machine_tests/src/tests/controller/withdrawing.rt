//! Commands that are taken back before they go out.

use super::*;

const OUT_0_ON: &str = "53050B0001680002000032";

const OUT_2_ON: &str = "53050B0001680202000030";

/// OUT 3:2:0 with number 2.
const OUT_3_ON: &str = "53050B000268030200002E";

/// An order for an output waits.
fn orders(rt: &impl Abort, controller: &mut Controller, record: &str) {
    let mut place = Spelling::new();
    let order = command(rt, &["OUT", record], &mut place);
    assert!(rt; controller.submit(&order).is_ok());
}

/// The command that is taken back is the order for this output.
fn takes_back(rt: &impl Abort, controller: &mut Controller, record: &str) {
    let mut place = Spelling::new();
    let order = command(rt, &["OUT", record], &mut place);
    let first = controller.withdrawable().expect(rt, "a command");
    assert!(rt; is_same(&first, &order));
    assert!(rt; controller.withdraw());
}

/// The command that may be taken back is the order for this output. It stays.
fn may_take_back(rt: &impl Abort, controller: &Controller, record: &str) {
    let mut place = Spelling::new();
    let order = command(rt, &["OUT", record], &mut place);
    let first = controller.withdrawable().expect(rt, "a command");
    assert!(rt; is_same(&first, &order));
}

/// No command is taken back, and as many wait as before.
fn takes_none_back(rt: &impl Abort, controller: &mut Controller, waiting: usize) {
    assert!(rt; controller.withdrawable().is_none() && !controller.withdraw());
    assert_eq!(rt; controller.waiting(), waiting);
}

/// The first order goes out three times from 411 on, and is told unsettled at 1011.
fn loses_first_order(rt: &impl Abort, controller: &mut Controller) {
    sends(rt, controller, 411, OUT_0_ON);
    takes_none_back(rt, controller, 3);
    sends(rt, controller, 611, OUT_0_ON);
    sends(rt, controller, 811, OUT_0_ON);
    let mut place = Spelling::new();
    let first = command(rt, &["OUT", "0:2:0"], &mut place);
    ends(rt, controller, 1011, Some(&first));
    assert!(rt; controller.is_closed());
}

/// A session is opened at 1420. In the quiet wait, while the opening ID is outstanding and after it the order that waits longest may be taken back.
fn opens_again(rt: &impl Abort, controller: &mut Controller) {
    assert_eq!(rt; controller.begin(1011), Ok(()));
    may_take_back(rt, controller, "2:2:0");
    sends(rt, controller, 1411, ID);
    may_take_back(rt, controller, "2:2:0");
    assert!(rt; is_opened(rt, &hear(rt, controller, PDID, 1420)));
    may_take_back(rt, controller, "2:2:0");
}

/// The order goes out and is settled.
fn settles(rt: &impl Abort, controller: &mut Controller, now: u64, row: (&str, &str, &str)) {
    let (record, packet, ack) = row;
    sends(rt, controller, now, packet);
    let report = hear(rt, controller, ack, now);
    let mut place = Spelling::new();
    let order = command(rt, &["OUT", record], &mut place);
    assert!(rt; is_settled(&report, &order, &Reply::Ack));
}

/// Three orders wait when the session is lost. The one that has waited longest is taken back; the two others go out in their order, and
/// it doesn't.
#[test]
fn an_order_that_has_gone_stale(rt: HostRuntime) {
    let mut controller = opened(&rt, rt.alloc());
    for record in ["0:2:0", "1:2:0", "2:2:0", "3:2:0"] {
        orders(&rt, &mut controller, record);
    }
    loses_first_order(&rt, &mut controller);
    assert_eq!(rt; controller.waiting(), 3);
    takes_back(&rt, &mut controller, "1:2:0");
    opens_again(&rt, &mut controller);
    settles(&rt, &mut controller, 1430, ("2:2:0", OUT_2_ON, ACK_1));
    settles(&rt, &mut controller, 1440, ("3:2:0", OUT_3_ON, ACK_2));
    stays(&rt, &mut controller, 1489);
    sends(&rt, &mut controller, 1490, POLL_3);
}

/// In a session that is open, with nothing outstanding, an order is taken back. A POLL goes out at its moment. While it is outstanding the order that has
/// waited longest is taken back, and the next one goes out.
#[test]
fn an_order_of_an_open_session(rt: HostRuntime) {
    let mut controller = opened(&rt, rt.alloc());
    orders(&rt, &mut controller, "1:2:0");
    takes_back(&rt, &mut controller, "1:2:0");
    takes_none_back(&rt, &mut controller, 0);
    stays(&rt, &mut controller, 459);
    sends(&rt, &mut controller, 460, POLL_1);
    orders(&rt, &mut controller, "0:2:0");
    orders(&rt, &mut controller, "3:2:0");
    takes_back(&rt, &mut controller, "0:2:0");
    passes_by(&rt, &mut controller, ACK_1, 470);
    settles(&rt, &mut controller, 470, ("3:2:0", OUT_3_ON, ACK_2));
    stays(&rt, &mut controller, 519);
    sends(&rt, &mut controller, 520, POLL_3);
}

/// Where none waits none comes back.
#[test]
fn nothing_to_take_back(rt: HostRuntime) {
    let mut controller = new_controller(&rt, rt.alloc(), 4);
    takes_none_back(&rt, &mut controller, 0);
    orders(&rt, &mut controller, "0:2:0");
    takes_back(&rt, &mut controller, "0:2:0");
    takes_none_back(&rt, &mut controller, 0);
}
