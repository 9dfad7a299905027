// A copy of what a server is configured with.
ghost use Rattle.std.specs.Prelude.{◌≡◌, IfOk};

use crypto_sessions::Users;
use server_checks::Config;
use std::alloc::{AllocError, Global};

fn copy_users(alloc: Global, from: &Users) -> Result<Users, AllocError>
    ensures { IfOk result (λ users. users ≡ from.now) }
{
    let mut users = Users::new(alloc, from.is_bare());
    let pairs = from.as_slice();
    for pair in pairs {
        let name = pair.0.copy()?;
        let password = pair.1.copy()?;
        users.push(name, password)?;
    }
    Ok(users)
}

/// A copy.
pub fn copy_of(alloc: Global, config: &Config) -> Result<Config, AllocError>
    ensures { IfOk result (λ c. c ≡ config.now) }
{
    let users = copy_users(alloc, &config.users)?;
    let share = config.share.copy()?;
    Ok(Config {
        users,
        share,
        room: config.room,
        encrypts: config.encrypts,
        address: config.address,
    })
}
