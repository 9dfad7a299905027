//! The server's tables, and single looks at them.
ghost use Rattle.std.specs.Prelude.{◌≡◌, ◌<◌, length, true};
ghost use Rattle.wire_commands.specs.values.Meaning.{info_of};
ghost use Rattle.spec_exchange.specs.CheckOpen.{file_of, has_access};
ghost use Rattle.spec_exchange.specs.Files as files;
ghost use Rattle.spec_exchange.specs.Files.{exists};
ghost use Rattle.spec_exchange.specs.State.{Server};
ghost use Rattle.spec_exchange.specs.Table.{is_at};
ghost use Rattle.store_files.specs.file_tree.Shown.{model_info};
ghost use Rattle.law_server.specs.tables.Fits.{Fits};
ghost use Rattle.server_checks.specs.Shown.{TablesShown};

use crate::session_table::Sessions;
use crate::verdicts::has_bit;
use crypto_sessions::Users;
use std::alloc::Global;
use store_files::Tree;
use store_opens::Opens;
use wire_bytes::Text;
use wire_commands::{Address, Basic, Info};

/// What a server is told when it starts, beside its disk.
#[derive(Drop)]
pub struct Config {
    /// Who may log on, with their keys (MS-NLMP 3.3.2).
    pub users: Users,
    /// The name of the one disk share, without the server's name, compared without regard to ASCII case.
    pub share: Text,
    /// How many bytes all files may hold; more than 268,435,456 counts as that.
    pub room: u64,
    /// EncryptData (MS-SMB2 3.3.1.5): messages of a session are sealed.
    pub encrypts: bool,
    /// Where the server is reached, told by FSCTL_QUERY_NETWORK_INTERFACE_INFO (MS-SMB2 2.2.32.5).
    pub address: Address,
}

/// The server's state but for its disk.
#[derive(Drop)]
pub struct Tables {
    pub alloc: Global,
    pub config: Config,
    /// Files by number and path.
    pub tree: Tree,
    /// GlobalOpenTable (MS-SMB2 3.3.1.10).
    pub opens: Opens,
    /// GlobalSessionTable and ConnectionList (3.3.1.7, 3.3.1.8).
    pub sessions: Sessions,
    /// The version of the journal.
    pub version: u32,
    /// How many bytes of the disk the journal uses.
    pub journal: u64,
}

impl Tables {
    /// The user of a session that is there.
    pub fn user(&self, session: u64) -> &str
        ensures { (s : Server) → TablesShown self.now s → s.present session ≡ true → result.now ≡ s.user session }
    {
        match self.sessions.row(session) {
            Some(row) => row.user.as_str(),
            None => "",
        }
    }

    /// The file of an open that stands.
    pub fn file_of(&self, id: u64) -> u64
        ensures shown { (s : Server) → TablesShown self.now s → s.standing id ≡ true → result ≡ file_of s id }
        ensures there { (s : Server) → Fits s → TablesShown self.now s → s.standing id ≡ true
            → exists s result ≡ true }
    {
        self.opens.file_of(id)
    }

    /// What is known of a file that is there.
    pub fn info(&self, file: u64) -> Info
        ensures { (s : Server) → TablesShown self.now s → exists s file ≡ true → info_of result
            ≡ files.info_of s file }
    {
        info_of(&self.tree.info(file))
    }

    /// Whether a file that is there is a directory.
    #[tactic(auto, unfolding(spec_exchange::specs::Files::info_of))]
    pub fn is_directory(&self, file: u64) -> bool
        ensures { (s : Server) → TablesShown self.now s → exists s file ≡ true → result ≡ files.is_directory s file }
    {
        self.info(file).is_directory
    }

    /// How many bytes a file that is there has.
    #[tactic(auto, unfolding(spec_exchange::specs::Files::info_of))]
    pub fn length(&self, file: u64) -> u64
        ensures { (s : Server) → TablesShown self.now s → exists s file ≡ true → result ≡ length (s.content file) }
    {
        self.info(file).size
    }

    /// Times (100 ns since 1601) and attributes of a file that is there.
    #[tactic(auto, unfolding(spec_exchange::specs::Files::info_of))]
    pub fn basic(&self, file: u64) -> Basic
        ensures { (s : Server) → TablesShown self.now s → exists s file ≡ true → result ≡ s.basic file }
    {
        self.info(file).times
    }

    /// Whether a file that is there is delete pending.
    #[tactic(auto, unfolding(spec_exchange::specs::Files::info_of))]
    pub fn is_pending(&self, file: u64) -> bool
        ensures { (s : Server) → TablesShown self.now s → exists s file ≡ true → result ≡ s.delete_pending file }
    {
        self.info(file).is_delete_pending
    }

    /// Whether the access of an open has this bit.
    pub fn has_access(&self, id: u64, bit: u32) -> bool
        requires { 0 < bit }
        ensures { (s : Server) → TablesShown self.now s → s.standing id ≡ true → result ≡ has_access s id bit }
    {
        match self.opens.row(id) {
            Some(row) => has_bit(row.access, bit),
            None => false,
        }
    }

    /// Whether an open outlives its session.
    pub fn is_persistent(&self, id: u64) -> bool
        ensures { (s : Server) → TablesShown self.now s → s.standing id ≡ true → result ≡ (s.opened id).persistent }
    {
        match self.opens.row(id) {
            Some(row) => row.persistent,
            None => false,
        }
    }
}

/// What the store knows of a file, as a reply tells it.
pub fn info_of(info: &store_files::Info) -> Info
    ensures { info_of result ≡ model_info info.now }
{
    Info {
        file: info.file,
        is_directory: info.directory,
        size: info.length,
        is_delete_pending: info.marked,
        times: info.basic,
    }
}

// The option holds this number.
pub(crate) fn is_at(number: u64, kept: Option<u64>) -> bool
    ensures { result ≡ is_at number kept }
{
    match kept {
        Some(kept) => kept == number,
        None => false,
    }
}
