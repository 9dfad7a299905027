//! The checks of SESSION_SETUP and TREE_CONNECT (MS-SMB2 3.3.5.5, 3.3.5.5.2, 3.3.5.5.3, 3.3.5.7).
ghost use Rattle.std.specs.Prelude.{◌≡◌, ◌==◌, ◌&&◌, if◌then◌else◌, ℕ, nat_le, true, false, None, Some};
ghost use Rattle.wire_commands.specs.values.Meaning.{command_of, message_of, setup_of, shows_of};
ghost use Rattle.spec_exchange.specs.CheckSetup.{binding_check, first_token, granted_binding};
ghost use Rattle.spec_exchange.specs.CheckSetup.{granted_session, live_binding, max_numbers, max_sessions, previous_of, second_binding};
ghost use Rattle.spec_exchange.specs.CheckSetup.{second_token, session_check, setup_check, tree_check};
ghost use Rattle.spec_exchange.specs.Commands.{Command, Logon, Setup};
ghost use Rattle.spec_exchange.specs.Opens.{max_ids};
ghost use Rattle.spec_exchange.specs.State.{Server};
ghost use Rattle.spec_exchange.specs.Status.{insufficient_resources};
ghost use Rattle.spec_exchange.specs.Texts.{same_name};
ghost use Rattle.spec_exchange.specs.Verdict.{Begin, Challenge, Refuse};
ghost use Rattle.server_checks.specs.Looks.{is_made_for};
ghost use Rattle.server_checks.specs.Shown.{TablesShown};
ghost use Rattle.server_checks.specs.verdicts.Views.{verdict_of};
ghost use Rattle.law_server.specs.tables.Fits.{Fits};
ghost use Rattle.server_checks.specs.session_table.Shown.{SessionRowFound, making_for};

use crate::session_table::{Purpose, SessionRow};
use crate::tables::Tables;
use crate::verdicts::status::{
    ACCESS_DENIED, BAD_NETWORK_NAME, INSUFFICIENT_RESOURCES, INVALID_PARAMETER, LOGON_FAILURE,
    REQUEST_NOT_ACCEPTED, USER_SESSION_DELETED,
};
use crate::verdicts::{Verdict, check_first_binding, refuse};
use store_opens::same_name;
use wire_commands::{Message, SetupRequest, Shows};

const MAX_SESSIONS: usize = 64;

const MAX_CHANNELS: usize = 32;

const MAX_NUMBERS: u32 = 65_535;

impl Tables {
    pub(crate) fn check_setup(&self, m: &Message<'_>, request: &SetupRequest) -> Verdict
        ensures { (s : Server) → Fits s → TablesShown self.now s
            → verdict_of (Setup (setup_of request.now)) result ≡ setup_check s (message_of m.now) (setup_of request.now) }
    {
        if request.binding {
            self.check_binding(m, request)
        } else {
            self.check_session(m, request)
        }
    }

    // ---- a new session

    fn check_session(&self, m: &Message<'_>, request: &SetupRequest) -> Verdict
        ensures { (s : Server) → Fits s → TablesShown self.now s
            → verdict_of (Setup (setup_of request.now)) result ≡ session_check s (message_of m.now) (setup_of request.now) }
    {
        if m.session_id == 0 {
            if self.sessions.on(m.connection).is_some() {
                return refuse(REQUEST_NOT_ACCEPTED);
            }
            return self.check_first_token(&request.shows);
        }
        if self.sessions.is_present(m.session_id) {
            return refuse(REQUEST_NOT_ACCEPTED);
        }
        if self.is_making(m, Purpose::New(m.session_id)) {
            return self.check_second_token(m, request);
        }
        refuse(USER_SESSION_DELETED)
    }

    // Whether this is in the making on the message's connection.
    fn is_making(&self, m: &Message<'_>, purpose: Purpose) -> bool
        ensures { (s : Server) → TablesShown self.now s → result ≡ is_made_for purpose (s.making m.now.connection) }
    {
        match self.sessions.making(m.connection) {
            Some(making) => is_purpose(purpose, making.purpose),
            None => false,
        }
    }

    fn check_first_token(&self, shows: &Shows) -> Verdict
        ensures { (c : Command) (s : Server) → Fits s → TablesShown self.now s → verdict_of c result
            ≡ first_token s (shows_of shows.now) }
    {
        match shows {
            Shows::Begins => self.first_challenge(),
            _ => refuse(INVALID_PARAMETER),
        }
    }

    // A new session is challenged as long as ids are left.
    fn first_challenge(&self) -> Verdict
        ensures { (c : Command) (s : Server) → TablesShown self.now s
            → verdict_of c result ≡ (if nat_le max_ids s.session_ids_given then Refuse insufficient_resources else Challenge) }
    {
        match self.sessions.next_id() {
            Some(_) => Verdict::Challenge,
            None => refuse(INSUFFICIENT_RESOURCES),
        }
    }

    fn check_second_token(&self, m: &Message<'_>, request: &SetupRequest) -> Verdict
        ensures { (s : Server) → Fits s → TablesShown self.now s
            → verdict_of (Setup (setup_of request.now)) result
            ≡ second_token s (message_of m.now) (setup_of request.now) (shows_of request.now.shows) }
    {
        match &request.shows {
            Shows::Begins => refuse(INVALID_PARAMETER),
            Shows::Bad => refuse(INVALID_PARAMETER),
            Shows::Refused => refuse(LOGON_FAILURE),
            Shows::Logon { user } => self.granted_session(m, request, user.as_str()),
        }
    }

    fn granted_session(&self, m: &Message<'_>, request: &SetupRequest, user: &str) -> Verdict
        ensures { (s : Server) → Fits s → TablesShown self.now s → shows_of request.now.shows ≡ Logon user.now
            → verdict_of (Setup (setup_of request.now)) result ≡ granted_session s (message_of m.now) (setup_of request.now) user.now }
    {
        // Not at the first SESSION_SETUP: it is judged where the logon would succeed (MS-SMB2 3.3.5.5.3).
        if self.lacks_cipher(request) {
            return refuse(ACCESS_DENIED);
        }
        self.counted_session(m, request, user)
    }

    // As many sessions stand as may, or it begins.
    fn counted_session(&self, m: &Message<'_>, request: &SetupRequest, user: &str) -> Verdict
        ensures { (s : Server) → TablesShown self.now s → shows_of request.now.shows ≡ Logon user.now
            → verdict_of (Setup (setup_of request.now)) result
            ≡ (if nat_le max_sessions s.sessions then Refuse insufficient_resources
            else Begin m.now.session_id user.now (previous_of s user.now request.now.previous) (setup_of request.now) false) }
    {
        if self.has_no_session_left() {
            return refuse(INSUFFICIENT_RESOURCES);
        }
        self.begun(m, request, user)
    }

    fn has_no_session_left(&self) -> bool
        ensures { (s : Server) → TablesShown self.now s → result ≡ nat_le max_sessions s.sessions }
    {
        self.sessions.count() >= MAX_SESSIONS
    }

    // Messages are to be sealed, and the connection chose no cipher.
    fn lacks_cipher(&self, request: &SetupRequest) -> bool
        ensures { (s : Server) → TablesShown self.now s → result ≡ (s.encrypts && (request.now.cipher == 0)) }
    {
        self.config.encrypts && request.cipher == 0
    }

    fn begun(&self, m: &Message<'_>, request: &SetupRequest, user: &str) -> Verdict
        ensures { (s : Server) → TablesShown self.now s → shows_of request.now.shows ≡ Logon user.now
            → verdict_of (Setup (setup_of request.now)) result
            ≡ Begin m.now.session_id user.now (previous_of s user.now request.now.previous) (setup_of request.now) false }
    {
        Verdict::Begin {
            session: m.session_id,
            previous: self.previous_of(user, request.previous),
            quiet: false,
        }
    }

    // The session that the request names as its previous one, where it is live and of the same user.
    fn previous_of(&self, user: &str, previous: u64) -> Option<u64>
        ensures { (s : Server) → TablesShown self.now s → result ≡ previous_of s user.now previous }
    {
        match self.sessions.row(previous) {
            Some(row) => own_session(row, user, previous),
            None => None,
        }
    }

    // ---- a further channel

    fn check_binding(&self, m: &Message<'_>, request: &SetupRequest) -> Verdict
        ensures { (s : Server) → Fits s → TablesShown self.now s
            → verdict_of (Setup (setup_of request.now)) result ≡ binding_check s (message_of m.now) (setup_of request.now) }
    {
        match self.sessions.row(m.session_id) {
            Some(row) => self.check_live_binding(m, request, row),
            None => self.check_early_binding(m, request),
        }
    }

    // To a session that isn't there yet, or none.
    fn check_early_binding(&self, m: &Message<'_>, request: &SetupRequest) -> Verdict
        ensures { (s : Server) → Fits s → TablesShown self.now s → s.present m.now.session_id ≡ false
            → verdict_of (Setup (setup_of request.now)) result ≡ binding_check s (message_of m.now) (setup_of request.now) }
    {
        if !self.is_making(m, Purpose::New(m.session_id)) {
            refuse(USER_SESSION_DELETED)
        } else if !request.signed {
            refuse(INVALID_PARAMETER)
        } else {
            refuse(REQUEST_NOT_ACCEPTED)
        }
    }

    fn check_live_binding(
        &self,
        m: &Message<'_>,
        request: &SetupRequest,
        row: &SessionRow,
    ) -> Verdict
        ensures { (s : Server) → Fits s → TablesShown self.now s → SessionRowFound (Some row.now) s m.now.session_id
            → verdict_of (Setup (setup_of request.now)) result ≡ live_binding s (message_of m.now) (setup_of request.now) }
    {
        if !request.signed {
            refuse(INVALID_PARAMETER)
        } else if !is_client(m, row) {
            refuse(USER_SESSION_DELETED)
        } else if !is_chosen(m, request, row) {
            refuse(INVALID_PARAMETER)
        } else if self.sessions.on(m.connection).is_some() {
            refuse(REQUEST_NOT_ACCEPTED)
        } else if !request.verified {
            refuse(ACCESS_DENIED)
        } else if self.is_making(m, Purpose::Binding(m.session_id)) {
            self.check_second_binding(m, &request.shows, row)
        } else {
            check_first_binding(m, &request.shows)
        }
    }

    fn check_second_binding(&self, m: &Message<'_>, shows: &Shows, row: &SessionRow) -> Verdict
        ensures { (c : Command) (s : Server) → Fits s → TablesShown self.now s
            → SessionRowFound (Some row.now) s m.now.session_id
            → verdict_of c result ≡ second_binding s (message_of m.now) (shows_of shows.now) }
    {
        match shows {
            Shows::Begins => Verdict::ChallengeBinding {
                session: m.session_id,
            },
            Shows::Bad => refuse(INVALID_PARAMETER),
            Shows::Refused => refuse(LOGON_FAILURE),
            Shows::Logon { user } => self.granted_binding(m, user.as_str(), row),
        }
    }

    fn granted_binding(&self, m: &Message<'_>, user: &str, row: &SessionRow) -> Verdict
        ensures { (c : Command) (s : Server) → Fits s → TablesShown self.now s
            → SessionRowFound (Some row.now) s m.now.session_id
            → verdict_of c result ≡ granted_binding s (message_of m.now) user.now }
    {
        if !is_user_of(user, row) {
            return refuse(ACCESS_DENIED);
        }
        if self.sessions.channels(m.session_id) >= MAX_CHANNELS {
            return refuse(INSUFFICIENT_RESOURCES);
        }
        if has_no_number_left(row) {
            return refuse(INSUFFICIENT_RESOURCES);
        }
        Verdict::Join {
            session: m.session_id,
        }
    }

    // ---- trees

    pub(crate) fn check_tree(&self, m: &Message<'_>, share: &str) -> Verdict
        ensures { (s : Server) → Fits s → TablesShown self.now s → s.present m.now.session_id ≡ true
            → verdict_of (command_of m.now.command) result ≡ tree_check s (message_of m.now) share.now }
    {
        if self.sessions.no_tree_left(m.session_id) {
            return refuse(INSUFFICIENT_RESOURCES);
        }
        if same_name(share, "IPC$") {
            return Verdict::AddTree { pipes: true };
        }
        if same_name(share, self.config.share.as_str()) {
            return Verdict::AddTree { pipes: false };
        }
        refuse(BAD_NETWORK_NAME)
    }
}

// The session, where it is this user's.
fn own_session(row: &SessionRow, user: &str, session: u64) -> Option<u64>
    ensures { result ≡ (if same_name row.now.user user.now then Some session else None) }
{
    if same_name(row.user.as_str(), user) {
        return Some(session);
    }
    None
}

// The request comes from the client of the session.
fn is_client(m: &Message<'_>, row: &SessionRow) -> bool
    ensures { (s : Server) → SessionRowFound (Some row.now) s m.now.session_id
        → result ≡ (m.now.client_guid == s.client m.now.session_id) }
{
    m.client_guid == row.client
}

// The request's connection chose the ciphers of the session.
fn is_chosen(m: &Message<'_>, request: &SetupRequest, row: &SessionRow) -> bool
    ensures { (s : Server) → SessionRowFound (Some row.now) s m.now.session_id
        → result ≡ ((request.now.cipher == s.cipher m.now.session_id) && (request.now.signing == s.signing m.now.session_id)) }
{
    has_ciphers(request, row)
}

fn is_user_of(user: &str, row: &SessionRow) -> bool
    ensures { (s : Server) (session : ℕ) → SessionRowFound (Some row.now) s session → result ≡ same_name user.now (s.user session) }
{
    same_name(user, row.user.as_str())
}

fn has_no_number_left(row: &SessionRow) -> bool
    ensures { (s : Server) (session : ℕ) → SessionRowFound (Some row.now) s session
        → result ≡ nat_le max_numbers (s.channel_numbers_drawn session) }
{
    row.drawn >= MAX_NUMBERS
}

// The request's connection chose the ciphers of the session.
fn has_ciphers(request: &SetupRequest, row: &SessionRow) -> bool
    ensures { result ≡ ((request.now.cipher == row.now.cipher) && (request.now.signing == row.now.signing)) }
{
    request.cipher == row.cipher && request.signing == row.signing
}

// What is in the making is for this purpose.
fn is_purpose(asked: Purpose, made: Purpose) -> bool
    ensures { result ≡ is_made_for asked (Some (making_for made)) }
{
    match asked {
        Purpose::New(session) => match made {
            Purpose::New(id) => id == session,
            Purpose::Binding(_) => false,
        },
        Purpose::Binding(session) => match made {
            Purpose::New(_) => false,
            Purpose::Binding(id) => id == session,
        },
    }
}
