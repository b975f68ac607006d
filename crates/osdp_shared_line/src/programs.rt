//! A rule for programs. The functions do nothing: their contracts are laws.

ghost use Rattle.osdp_shared_line.specs.Programs.{RuleSuffices};

use osdp_reader::Handler;

/// A program that keeps to this rule gives no address where another device may come. A COMSET of an entry, a `retarget` and a restart each leave one
/// address and set one. Until that entry's next session has opened, neither of them goes to another entry, and `retarget` and a restart of the panel
/// set no other than these. Readers restart where they are.
pub fn rule_suffices<H: Handler>()
    ensures { RuleSuffices H.answer_of H.after }
{
    osdp_link_laws::reads_what_is_asked();
}
