//! Parts of what a command asks for.
use pv_request::{Request, Settings};

/// The name of the system's file.
pub(crate) fn system_of<'a>(request: &Request<'a>) -> Option<&'a str> {
    match request {
        Request::Check { system }
        | Request::Run { system, .. }
        | Request::Resume { system, .. }
        | Request::Merge { system, .. }
        | Request::Audit { system, .. }
        | Request::Svg { system, .. }
        | Request::Least { system, .. }
        | Request::Campaign { system, .. } => Some(*system),
        Request::Sample { .. } => None,
    }
}

/// The settings by which boxes are settled.
pub(crate) fn settings_of<'q, 'a>(request: &'q Request<'a>) -> Option<&'q Settings<'a>> {
    match request {
        Request::Run { settings, .. }
        | Request::Resume { settings, .. }
        | Request::Merge { settings, .. }
        | Request::Audit { settings, .. }
        | Request::Svg { settings, .. }
        | Request::Least { settings, .. }
        | Request::Campaign { settings, .. } => Some(settings),
        Request::Check { .. } | Request::Sample { .. } => None,
    }
}
