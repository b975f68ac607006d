//! What comparing two packets comes to. The function has no code: it states a law, and its proof is the law's.

ghost use Rattle.osdp_rules.specs.Packets.{ComparesPackets};

/// Packets are compared as a whole: none of their bytes is passed over.
pub fn compares_packets()
    ensures { ComparesPackets }
{}
