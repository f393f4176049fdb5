//! What a pattern calls the refusals that every pattern has: each has the same name in its errors.

/// The error of an open that is refused so.
#[macro_export]
macro_rules! open_error_of_refusal {
    ($refusal:expr, $error:ident) => {
        match $refusal {
            OpenRefusal::DoesNotExist => $error::DoesNotExist,
            OpenRefusal::IncompatibleAttributes => $error::IncompatibleAttributes,
            OpenRefusal::ServiceInCorruptedState => $error::ServiceInCorruptedState,
            OpenRefusal::InternalFailure => $error::InternalFailure,
            OpenRefusal::ExceedsMaxNumberOfNodes => $error::ExceedsMaxNumberOfNodes,
            OpenRefusal::IsMarkedForDestruction => $error::IsMarkedForDestruction,
            OpenRefusal::OutOfMemory => $error::OutOfMemory,
            OpenRefusal::HangsInCreation => $error::HangsInCreation,
            OpenRefusal::InsufficientPermissions => $error::InsufficientPermissions,
        }
    };
}

/// The error of a create that is refused so.
#[macro_export]
macro_rules! create_error_of_refusal {
    ($refusal:expr, $error:ident) => {
        match $refusal {
            CreateRefusal::ServiceInCorruptedState => $error::ServiceInCorruptedState,
            CreateRefusal::InternalFailure => $error::InternalFailure,
            CreateRefusal::IsBeingCreatedByAnotherInstance => {
                $error::IsBeingCreatedByAnotherInstance
            }
            CreateRefusal::AlreadyExists => $error::AlreadyExists,
            CreateRefusal::InsufficientPermissions => $error::InsufficientPermissions,
            CreateRefusal::OutOfMemory => $error::OutOfMemory,
            CreateRefusal::HangsInCreation => $error::HangsInCreation,
        }
    };
}
