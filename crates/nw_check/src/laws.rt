//! Laws of faults. Each law is the proved contract of a function that does nothing.
ghost use Rattle.nw_check.specs.Laws.{BlocksHaveOneFault, CertificatesHaveOneFault};
ghost use Rattle.nw_check.specs.Laws.{VotesHaveOneFault};

/// A block has at most one fault. The only fault of a well-formed block is `NoMemory`.
pub fn blocks_have_one_fault()
    ensures { BlocksHaveOneFault }
{}

/// A certificate has at most one fault. The only fault of a valid certificate is `NoMemory`.
pub fn certificates_have_one_fault()
    ensures { CertificatesHaveOneFault }
{}

/// A vote has at most one fault. The only fault of a vote that may count is `NoMemory`.
pub fn votes_have_one_fault()
    ensures { VotesHaveOneFault }
{}
