//! Laws of the definitions that contracts cite. Their functions do nothing when they run: they are there for their
//! contracts.

ghost use Rattle.fb_inputs.specs.DeployDocuments.{ReadsDocuments};
ghost use Rattle.fb_inputs.specs.DeployNumbers.{JudgesNumbers};
ghost use Rattle.fb_inputs.specs.DeployTables.{IgnoresOrder, ReadsLinks, ReadsResources};

/// A table of a deployment is read as a resource exactly if it has a device, a name and instances, and no further key.
/// Otherwise it is refused for the first of these that is not right.
pub fn reads_resources()
    ensures { ReadsResources }
{}

/// A table of a deployment is read as a link exactly if it has two different resources, one latency or a table of
/// latencies, and no further key. Otherwise it is refused for the first of these that is not right.
pub fn reads_links()
    ensures { ReadsLinks }
{}

/// What a table of a deployment is depends on which value is at which key, and not on the order of the keys.
pub fn ignores_order()
    ensures { IgnoresOrder }
{}

/// The document of a deployment is read exactly if it has one resource or more, links if it has that key, and no further
/// key. Otherwise it is refused for the first of these that is not right, and of an array for its first wrong table.
pub fn reads_documents()
    ensures { ReadsDocuments }
{}

/// The numbers of a deployment are accepted exactly if each latency, each table of latencies and each count is as it may
/// be. Otherwise the deployment is refused for the first wrong latency, else for the first wrong table, else for a count.
pub fn judges_numbers()
    ensures { JudgesNumbers }
{}
