//! What the definitions say of known plans.

ghost use Rattle.edi_compare.specs.Known.{node_classes};
ghost use Rattle.edi_matching.specs.Known.{both_nodes, matched_node, moved_node, two_nodes};
ghost use Rattle.edi_matching.specs.Matchings.{IsTotal, MatchingHolds};

/// Known matchings hold or don't, and are total or not, as they should be.
pub fn known_matchings_hold()
    ensures holds { MatchingHolds node_classes two_nodes moved_node matched_node }
    ensures partial { ¬ (IsTotal two_nodes moved_node matched_node) }
    ensures moved { ¬ (MatchingHolds node_classes two_nodes moved_node both_nodes) }
{}
