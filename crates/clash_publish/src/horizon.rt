//! Which versions are live.
ghost use Rattle.std.specs.Prelude.{◌≡◌};
ghost use Rattle.clash_publish.specs.Shelves.{newest_of, is_live};

/// So many of the newest versions of a project are live.
pub const LIVE_VERSIONS: u64 = 16;

/// The newest version of each project from 1 to 8, in their order, and 0 where there is no such project.
#[derive(Clone, Copy, Debug, PartialEq, Eq)]
pub struct Horizon {
    pub newest: [u64; 8],
}

impl Horizon {
    /// The newest version of a project, 0 of a number other than 1 to 8.
    pub fn newest_of(&self, project: u32) -> u64
        ensures { result ≡ newest_of self.now.newest project }
    {
        if 0 < project && project <= 8 {
            self.newest[project as usize - 1]
        } else {
            0
        }
    }

    /// Whether the version is one of the newest sixteen of its project.
    pub fn is_live(&self, project: u32, version: u64) -> bool
        ensures { result ≡ is_live self.now.newest project version }
    {
        self.newest_of(project).saturating_sub(version) < LIVE_VERSIONS
    }
}
