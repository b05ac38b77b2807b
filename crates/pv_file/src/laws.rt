//! What texts tell of pavings, as contracts. Each holds by its contract alone, and the calls do
//! nothing.
ghost use Rattle.pv_file.specs.Lengths.{
  LinesAreShort,
  OpenLeavesAreFew,
  FilesAreShort,
  FilesHaveLimit,
  FilesAreRead,
};
ghost use Rattle.pv_file.specs.Readings.{TextsDiffer, OneIdentity};

/// Different pavings of one box have different texts of one version, and a text tells its version
/// and its identity.
pub fn different_texts()
    ensures pavings { TextsDiffer }
    ensures identity { OneIdentity }
{}

/// In numbers of the format, the line of a settled node has at most 660 bytes with its line feed,
/// that of an open leaf 2, and the two lines before the nodes have 83. With at most n settled
/// nodes, and so at most n + 1 open leaves, a paving's file of either version is never too long to
/// be read where a tree may have n settled nodes.
pub fn text_lengths()
    ensures lines { LinesAreShort }
    ensures leaves { OpenLeavesAreFew }
    ensures files { FilesAreShort }
    ensures limit { FilesHaveLimit }
    ensures read { FilesAreRead }
{}
