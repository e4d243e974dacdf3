//! Laws of the definitions, for the code that keeps tables for them. Each is the contract of a function that does nothing.
#![tactic(auto)]

ghost use Rattle.node_layers.specs.BuiltLayers.{built_layers};
ghost use Rattle.node_layers.specs.NodeLayers.{node_layers};
ghost use Rattle.node_layers.specs.Segments.{AnswersSegments, HasWhole};
ghost use Rattle.node_layers.specs.Steps.{CacheGoesOn, FriendsGoOn, LevelGoesOn, OnOffGoesOn, OwnGoOn, PartsGoOn, PublishedGoesOn, SegmentedGoesOn, SegmentedIsAny, TimeGoesOn};

/// The answer to a segment is what the state of reassembly says of it, and a whole message has the octets of its pieces.
pub fn segment_law()
    ensures built_answers { AnswersSegments built_layers }
    ensures built_whole { HasWhole built_layers }
    ensures node_answers { AnswersSegments node_layers }
    ensures node_whole { HasWhole node_layers }
{}

/// An entry more is one step of each state: of the time, the messages in reassembly, the own segmented messages, the friendships, the models
/// of an element, what is published, the message cache, and the list of the names accepted from segments.
pub fn step_law()
    ensures time { TimeGoesOn }
    ensures parts { PartsGoOn }
    ensures own { OwnGoOn }
    ensures friends { FriendsGoOn }
    ensures onoff { OnOffGoesOn }
    ensures level { LevelGoesOn }
    ensures publications { PublishedGoesOn }
    ensures cache { CacheGoesOn }
    ensures segmented { SegmentedGoesOn }
    ensures again { SegmentedIsAny }
{}
