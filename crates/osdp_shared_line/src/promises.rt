//! What is promised of one link holds of each of several. The function does nothing: its contract is a law.

ghost use Rattle.osdp_shared_line.specs.Restarts.{EachRefusesNoneWithoutRestart};
ghost use Rattle.osdp_shared_line.specs.Runs.{EachRefusesNoNumber};

use osdp_reader::Handler;

/// No session of a reader that hasn't restarted in it ends because the reader refused a number, whatever comes next. Where its reader never restarts, none
/// of its sessions does.
pub fn each_refuses_no_number<H: Handler>()
    ensures endings { EachRefusesNoNumber H.answer_of H.after }
    ensures never { EachRefusesNoneWithoutRestart H.answer_of H.after }
{
    crate::each_is_a_link::<H>();
    osdp_link_laws::refuses_no_number::<H>();
}
