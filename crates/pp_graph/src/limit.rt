//! How many keys a report may show.
ghost use Rattle.std.specs.Prelude.{◌≡◌, ◌≤ℤ◌, negsuc};
ghost use Rattle.pp_graph.specs.Trim.{node_limit};

/// The most keys that a report shows, 0 for no limit: `nodecount`, and where it is -1 the report's own limit.
pub fn node_limit(nodecount: i32, own: u32) -> u32
    requires { negsuc 0 ≤ℤ nodecount }
    ensures { result ≡ node_limit nodecount own }
{
    if nodecount < 0 { own } else { nodecount as u32 }
}
