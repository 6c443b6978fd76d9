//! The error codes of the protocol.
ghost use Rattle.std.specs.Prelude.{◌≡◌};
ghost use Rattle.ifmap_ident.specs.Codes.{code_name};

/// Why a request was refused: the error codes of the IF-MAP binding for SOAP, version 2.2, `errorCode`
/// of its schema.
#[derive(Clone, Copy, Debug, PartialEq, Eq)]
pub enum Code {
    /// The session belongs to another client.
    AccessDenied,
    /// The request is of no form that the protocol has, and no other code says why.
    Failure,
    /// An identifier lacks a part or has a value that is not of its form.
    InvalidIdentifier,
    /// An element in the place of an identifier is none.
    InvalidIdentifierType,
    /// An identifier has too many bytes.
    IdentifierTooLong,
    /// An element in the place of metadata is none.
    InvalidMetadata,
    /// The request is written for another version of the protocol.
    InvalidSchemaVersion,
    /// No live session has that id.
    InvalidSessionID,
    /// A metadata element has too many bytes.
    MetadataTooLong,
    /// What a search found is larger than the search allows.
    SearchResultsTooBig,
    /// What a poll has to tell is larger than the session allows.
    PollResultsTooBig,
    /// The server has no room left for another session, or has used its serials up.
    SystemError,
}

impl Code {
    /// The code as it is written in a reply.
    pub fn name(self) -> &'static str
        ensures { result.now ≡ code_name self }
    {
        match self {
            Code::AccessDenied => "AccessDenied",
            Code::Failure => "Failure",
            Code::InvalidIdentifier => "InvalidIdentifier",
            Code::InvalidIdentifierType => "InvalidIdentifierType",
            Code::IdentifierTooLong => "IdentifierTooLong",
            Code::InvalidMetadata => "InvalidMetadata",
            Code::InvalidSchemaVersion => "InvalidSchemaVersion",
            Code::InvalidSessionID => "InvalidSessionID",
            Code::MetadataTooLong => "MetadataTooLong",
            Code::SearchResultsTooBig => "SearchResultsTooBig",
            Code::PollResultsTooBig => "PollResultsTooBig",
            Code::SystemError => "SystemError",
        }
    }
}
